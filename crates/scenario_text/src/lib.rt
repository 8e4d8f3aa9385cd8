// The language of scenarios: what a line asks for, and how values are written.
#![tactic(auto)]

mod actions;
pub mod bytes;
pub mod command;
pub mod condition;
pub mod fault;
mod fields;
mod inside;
pub mod mode;
pub mod names;
pub mod number;
pub mod outcome;
pub mod parse;
pub mod peers;
pub mod reason;
mod setup;
pub mod state;
pub mod truth;
mod values;
mod words;
