// Putting frames, which a stop ends.
ghost use Rattle.std.specs.Prelude.{◌≡◌, ◌<◌, ◌≤◌, [], ◌∷◌, length, vec_len};
ghost use Rattle.sink.specs.Frames.{waiting_of, stopped_by, Grown};
ghost use Rattle.queue.specs.Queues.{model_of};

use super::Queue;
use crate::place::Place;
use amqp::error::SinkError;
use amqp::stop::SessionStopReason;
use sink::frame::Frame;
use sink::sink::Sink;

impl Queue {
    // From now on each put is refused with this reason. The newest reason counts.
    pub fn stop(&mut self, reason: SessionStopReason)
        ensures { model_of self.new ≡ stopped_by reason (model_of self.old) }
    {
        self.stop = Some(reason);
    }

    // Fills the first free place.
    fn store(&mut self, frame: Frame<'_>)
        requires place { self.old.used < vec_len self.old.places }
        requires narrow { length frame.payload.now ≤ self.old.widest }
        ensures { Grown (model_of self.old) (model_of self.new) (waiting_of frame.entry ∷ []) 1 }
    {
        let s = self.slot_at(self.used);
        let at = s * self.widest;
        let size = frame.payload.len();
        self.bytes[at..at + size].copy_from_slice(frame.payload);
        self.places[s] = Place {
            kind: frame.kind,
            handle: frame.handle,
            header: frame.header,
            size,
        };
        self.used += 1;
    }
}

impl Sink for Queue {
    ghost model = { model_of };

    fn put(&mut self, frame: Frame<'_>) -> Result<(), SinkError> {
        // `ask_room` asks the same, but a call of it here did not prove, since it leads back to this impl.
        if let Some(reason) = self.stop {
            return Err(SinkError::SessionStopped(reason));
        }
        if frame.payload.len() > self.widest {
            return Err(SinkError::PayloadTooWide);
        }
        if self.used == self.places.len() {
            return Err(SinkError::SinkFull);
        }
        self.store(frame);
        Ok(())
    }

    fn vacancy(&self) -> usize {
        self.places.len() - self.used
    }

    fn widest(&self) -> usize {
        self.widest
    }

    fn stop_reason(&self) -> Option<SessionStopReason> {
        self.stop
    }
}
