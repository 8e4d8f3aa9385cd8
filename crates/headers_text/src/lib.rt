// The text of headers: what is printed of one, and bytes in hexadecimal digits.
#![tactic(auto)]

pub mod hex;
pub mod show;
