// Our own disposition of a delivery.
ghost use Rattle.std.specs.Prelude.{◌≡◌};
ghost use Rattle.link.specs.Calls.{Dispose};
ghost use Rattle.link.specs.Disposing.{sends_settled, disposed_here_at};
ghost use Rattle.link.specs.Turns.{landed};
ghost use Rattle.unsettled.specs.Tables.{look};
ghost use Rattle.runs.specs.Safe.{SafeAfter};
ghost use Rattle.sender.specs.Disposes.{Disposes};

use super::SenderLink;
use amqp::error::SinkError;
use amqp::header::{Disposition, FrameKind, Header};
use link::delivery::Disposal;
use sink::frame::Frame;
use sink::sink::Sink;

impl<'a> SenderLink<'a> {
    // Every delivery was settled when it was sent, so none is to be told of.
    fn sends_settled(&self) -> bool
        ensures { result ≡ sends_settled self.now }
    {
        self.settings.is_settled_on_send(Some(false))
    }

    // The delivery ends with the state that was recorded, or the state told is recorded.
    fn settle_here(&mut self, disposal: &Disposal)
        ensures { self.new ≡ landed self.old (disposed_here_at (look disposal.now.delivery_tag self.old.held.table) disposal.now self.old) }
    {
        let tag = &disposal.delivery_tag;
        if let Some(entry) = self.unsettled.get(tag) {
            if disposal.settled {
                self.end(tag, &entry, entry.state);
            } else {
                self.record(tag, &entry, Some(disposal.state));
            }
        }
    }

    // Tells the peer a delivery's state by one frame, which goes out for a tag that is not in the table too.
    pub fn dispose<S: Sink>(&mut self, sink: &mut S, disposal: &Disposal) -> Result<(), SinkError>
        ensures disposes { Disposes self.old (S.model sink.old) disposal.now result self.new (S.model sink.new) }
        ensures no_delivery_lost_or_ended_twice { SafeAfter self.old (Dispose (S.model sink.old) disposal.now) self.new }
    {
        if self.sends_settled() {
            return Ok(());
        }
        sink.put(Frame {
            kind: FrameKind::Disposition,
            handle: 0,
            header: Header::Disposition(Disposition {
                first: disposal.delivery_id,
                settled: disposal.settled,
                state: Some(disposal.state),
                batchable: disposal.batchable,
            }),
            payload: &[],
        })?;
        self.settle_here(disposal);
        Ok(())
    }
}
