// A sink of records laid end to end in memory that is handed in, and the reader of such records.
#![tactic(auto)]

pub mod kind;
mod layout;
mod memory;
pub mod record;
pub mod spool;
