// Putting frames, which a stop ends.
ghost use Rattle.std.specs.Prelude.{◌≡◌, ◌≤◌, [], ◌∷◌, length};
ghost use Rattle.sink.specs.Frames.{waiting_of, stopped_by, Grown};
ghost use Rattle.spool.specs.Spools.{model_of};

use super::Spool;
use crate::layout::MOST;
use amqp::error::SinkError;
use amqp::stop::SessionStopReason;
use sink::frame::Frame;
use sink::sink::Sink;

impl Spool {
    // From now on each put is refused with this reason. The newest reason counts.
    pub fn stop(&mut self, reason: SessionStopReason)
        ensures { model_of self.new ≡ stopped_by reason (model_of self.old) }
    {
        self.stop = Some(reason);
    }

    // How many frames surely find room.
    fn room(&self) -> usize
        ensures { result ≡ (model_of self.now).vacancy }
    {
        self.memory.free() / (MOST + self.widest)
    }

    fn lay(&mut self, frame: Frame<'_>)
        requires narrow { length frame.payload.now ≤ self.old.widest }
        requires room { 1 ≤ (model_of self.old).vacancy }
        ensures { Grown (model_of self.old) (model_of self.new) (waiting_of frame.entry ∷ []) 1 }
    {
        self.memory.append_record(frame);
    }
}

impl Sink for Spool {
    ghost model = { model_of };

    fn put(&mut self, frame: Frame<'_>) -> Result<(), SinkError> {
        // `ask_room` asks the same, but a call of it here would lead back to this impl, as at the queue.
        if let Some(reason) = self.stop {
            return Err(SinkError::SessionStopped(reason));
        }
        if frame.payload.len() > self.widest {
            return Err(SinkError::PayloadTooWide);
        }
        if self.room() == 0 {
            return Err(SinkError::SinkFull);
        }
        self.lay(frame);
        Ok(())
    }

    fn vacancy(&self) -> usize {
        self.room()
    }

    fn widest(&self) -> usize {
        self.widest
    }

    fn stop_reason(&self) -> Option<SessionStopReason> {
        self.stop
    }
}
