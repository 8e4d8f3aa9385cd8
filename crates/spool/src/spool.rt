// A spool's memory, and what always holds of it.
ghost use Rattle.std.specs.Prelude.{◌≡◌, ◌≤◌};
ghost use Rattle.spool.specs.Memories.{laid};
ghost use Rattle.spool.specs.Records.{records};
ghost use Rattle.spool.specs.Reading.{frames_in};

use crate::memory::Memory;
use amqp::stop::SessionStopReason;

pub mod emptying;
pub mod making;
pub mod putting;

// The frames that wait are those to which the bytes laid so far read back. It has no model, since making and giving back speak of the
// memory: with one no clause could name it.
#[derive(Drop)]
pub struct Spool {
    memory: Memory,
    widest: usize,
    stop: Option<SessionStopReason>,
    ghost narrow: { widest ≤ 65535 },
    ghost whole: { records (frames_in (laid memory)) ≡ laid memory },
}
