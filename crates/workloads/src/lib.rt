// Work for a program that measures how long it takes: each export does the library's own calls so many times, and answers how
// many did what they should.
#![tactic(auto)]

pub mod berth;
pub mod comebacks;
pub mod credit;
pub mod dispositions;
pub mod headers;
pub mod outlet;
pub mod sends;
