// What a sender link is made of, and the rules that it keeps.
#![tactic(auto)]

pub mod attach;
pub mod delivery;
pub mod flow;
pub mod resumption;
pub mod seat;
pub mod settings;
pub mod state;
