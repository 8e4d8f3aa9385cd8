// What other languages call: functions on numbers, slices and plain structs. Each answers what the library's own function does.
#![tactic(auto)]

pub mod answer;
pub mod credit;
pub mod fields;
pub mod form;
pub mod header;
pub mod place;
pub mod state;
pub mod transfer;
