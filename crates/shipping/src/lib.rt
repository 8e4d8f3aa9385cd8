// Files as AMQP messages: each is sent over a link, and an archive at the other end takes it in and answers.
#![tactic(auto)]

pub mod archive;
pub mod dock;
pub mod message;
pub mod number;
pub mod options;
pub mod outbox;
pub mod report;
pub mod shelf;
pub mod unload;
