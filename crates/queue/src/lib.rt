// A sink of some places over memory that is handed in, and the reader of what waits in it.
#![tactic(auto)]

pub mod place;
pub mod queue;
