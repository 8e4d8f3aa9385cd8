// Where a link puts its frames, and how a message is cut into them.
#![tactic(auto)]

pub mod frame;
pub mod sink;
pub mod split;
