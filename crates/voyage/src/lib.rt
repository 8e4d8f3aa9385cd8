// The archive's side of a link that breaks: it keeps what came of a delivery until the rest comes under the same tag.
#![tactic(auto)]

pub mod receiver;
pub mod report;
pub mod returns;
