// The sinks of a scenario, and what they can do besides taking frames.
ghost use Rattle.std.specs.Prelude.{◌≡◌, Bool, true, false, length, vec_items, Err, OnOk, OnErr, IfErr, IfOk};
ghost use Rattle.queue.specs.Reading.{read_into};
ghost use Rattle.sink.specs.Frames.{stopped_by};
ghost use Rattle.spool.specs.Records.{records};
ghost use Rattle.scenario_play.specs.declared.trouble.Trouble.TheVariants.{WrongSink, Memory};
ghost use Rattle.scenario_play.specs.Outlets.{taken_by, left_by, read_by, Emptied};

use crate::trouble::Trouble;
use amqp::error::MemoryError;
use amqp::stop::SessionStopReason;
use queue::place::Place;
use queue::queue::Queue;
use sink::sink::Sink;
use spool::spool::Spool;
use std::alloc::Global;

pub trait Outlet: Sink + Drop {
    // It is read frame by frame; another is read whole.
    ghost framewise: { Bool };

    // From now on each put is refused with this reason.
    fn stop(&mut self, reason: SessionStopReason)
        ensures { Self.Sink.model self.new ≡ stopped_by reason (Self.Sink.model self.old) };

    // The oldest frame no longer waits, and its payload goes to the front of `out`.
    fn take(&mut self, out: &mut [u8]) -> Result<Option<Place>, Trouble>
        ensures answer { result ≡ taken_by framewise (Self.Sink.model self.old).waiting (length out.old) }
        ensures after { Self.Sink.model self.new ≡ left_by framewise (Self.Sink.model self.old) (length out.old) }
        ensures read { out.new ≡ read_by framewise (Self.Sink.model self.old).waiting out.old };

    // The records of all frames that wait; none waits then.
    fn empty(&mut self, heap: Global) -> Result<Vec<u8>, Trouble>
        ensures whole { OnOk result (framewise ≡ false) }
        ensures frames { framewise ≡ true → result ≡ Err WrongSink }
        ensures failed { framewise ≡ false → IfErr result (λ e. e ≡ Memory) }
        ensures bytes { IfOk result (λ v. vec_items v ≡ records (Self.Sink.model self.old).waiting) }
        ensures after { OnOk result (Emptied (Self.Sink.model self.old) (Self.Sink.model self.new)) }
        ensures kept { OnErr result (Self.Sink.model self.new ≡ Self.Sink.model self.old) };
}

// A reader's memory is too short, which the memory of a player is not.
fn too_short(_e: MemoryError) -> Trouble
    ensures { result ≡ Trouble.Memory }
{
    Trouble::Memory
}

impl Outlet for Queue {
    ghost framewise = { true };

    fn stop(&mut self, reason: SessionStopReason) {
        Queue::stop(self, reason);
    }

    fn take(&mut self, out: &mut [u8]) -> Result<Option<Place>, Trouble> {
        Queue::take(self, out).map_err(too_short)
    }

    fn empty(&mut self, _heap: Global) -> Result<Vec<u8>, Trouble> {
        Err(Trouble::WrongSink)
    }
}

impl Outlet for Spool {
    ghost framewise = { false };

    fn stop(&mut self, reason: SessionStopReason) {
        Spool::stop(self, reason);
    }

    fn take(&mut self, _out: &mut [u8]) -> Result<Option<Place>, Trouble> {
        Err(Trouble::WrongSink)
    }

    fn empty(&mut self, heap: Global) -> Result<Vec<u8>, Trouble> {
        let mut out = vec![in heap; 0u8; self.waiting_bytes()]?;
        Spool::empty(self, &mut out).map_err(too_short)?;
        Ok(out)
    }
}
