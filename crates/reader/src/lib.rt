// Readers of AMQP headers: each reads what its encoder writes, and nothing else.
#![tactic(auto)]

mod compact;
mod field;
mod header;
mod input;
mod parse;
pub mod reader;
mod same;
mod state;
mod tag;
mod wide;
mod width;
