// Unsettled deliveries, ours and the peer's, in memory that is lent.
#![tactic(auto)]

pub mod index;
pub mod map;
pub mod message;
pub mod peer;
pub mod shown;
pub mod slot;
pub mod worklist;
