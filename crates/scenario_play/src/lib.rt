// A scenario played: a link carried through a list of calls, and what each call answers.
#![tactic(auto)]

pub mod answer;
pub mod breaks;
pub mod chosen;
pub mod files;
mod limited;
mod lines;
pub mod outlet;
mod parts;
pub mod play;
pub mod player;
mod sinks;
pub mod snapshot;
mod tickets;
pub mod trouble;
