// What a sink is: every implementation shows the meaning that is stated here.
ghost use Rattle.std.specs.Prelude.{◌≡◌, [], ◌∷◌};
ghost use Rattle.sink.specs.Frames.{waiting_of, Model, After, fault_at, put_fault, answer};

use crate::frame::Frame;
use amqp::error::SinkError;
use amqp::stop::SessionStopReason;

pub trait Sink {
    // The frames that wait, the vacancy, the widest payload and the stop reason.
    ghost model: { Self → Model };

    // The frame joins the end of those that wait.
    fn put(&mut self, frame: Frame<'_>) -> Result<(), SinkError>
        ensures answer { result ≡ answer (put_fault (model self.old) frame.entry) }
        ensures after { After (put_fault (model self.old) frame.entry) (model self.old) (model self.new) (waiting_of frame.entry ∷ []) 1 };

    fn vacancy(&self) -> usize
        ensures { result ≡ (model self.now).vacancy };

    fn widest(&self) -> usize
        ensures { result ≡ (model self.now).widest };

    fn stop_reason(&self) -> Option<SessionStopReason>
        ensures { result ≡ (model self.now).stopped };
}

// What a sink would answer to `count` frames, the widest of `width` bytes.
pub fn ask_room<S: Sink>(sink: &S, width: usize, count: usize) -> Result<(), SinkError>
    ensures { result ≡ answer (fault_at (S.model sink.now) width count) }
{
    if let Some(reason) = sink.stop_reason() {
        return Err(SinkError::SessionStopped(reason));
    }
    if width > sink.widest() {
        return Err(SinkError::PayloadTooWide);
    }
    if count > sink.vacancy() {
        return Err(SinkError::SinkFull);
    }
    Ok(())
}
