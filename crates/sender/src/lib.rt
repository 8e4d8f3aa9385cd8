// The sender link.
#![tactic(auto)]

pub mod sender_link;
pub mod ticket;
