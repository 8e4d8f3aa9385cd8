// AMQP 1.0's types, as far as a sender link uses them.
#![tactic(auto)]

pub mod condition;
pub mod error;
pub mod header;
pub mod mode;
pub mod state;
pub mod stop;
pub mod tag;
pub mod text;
