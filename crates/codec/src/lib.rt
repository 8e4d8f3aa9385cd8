// Encoders of AMQP headers: what one is, the compact one and the wide one.
#![tactic(auto)]

mod body;
pub mod codes;
pub mod compact;
mod descriptor;
pub mod encoder;
pub mod error;
mod field;
mod form;
mod header;
pub mod name;
mod scratch;
mod state;
pub mod wide;
