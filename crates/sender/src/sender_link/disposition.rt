// The peer's disposition of a delivery.
ghost use Rattle.std.specs.Prelude.{◌≡◌, Some};
ghost use Rattle.link.specs.Calls.{Disposition, step};
ghost use Rattle.link.specs.Disposing.{settle_back, taken_out, noted};
ghost use Rattle.link.specs.Turns.{landed};
ghost use Rattle.unsettled.specs.Tables.{look};
ghost use Rattle.runs.specs.Safe.{SafeAfter};

use super::SenderLink;
use amqp::mode::ReceiverSettleMode;
use amqp::state::DeliveryState;
use amqp::tag::DeliveryTag;
use link::delivery::{Outcome, is_terminal, record_state};
use unsettled::message::UnsettledMessage;

impl<'a> SenderLink<'a> {
    // The delivery of a tag ends with a state, or with none.
    pub(super) fn end(
        &mut self,
        tag: &DeliveryTag,
        entry: &UnsettledMessage,
        state: Option<DeliveryState>,
    )
        ensures { self.new ≡ landed self.old (taken_out tag.now state entry.now self.old) }
    {
        let _entry = self.unsettled.swap_remove(tag);
        self.seats.tell(entry.ticket, Outcome::from(state));
    }

    // The state of a tag's delivery is recorded, unless an outcome was before.
    pub(super) fn record(
        &mut self,
        tag: &DeliveryTag,
        entry: &UnsettledMessage,
        state: Option<DeliveryState>,
    )
        requires { look tag.now self.old.held.table ≡ Some entry.now }
        ensures { self.new ≡ landed self.old (noted tag.now state entry.now self.old) }
    {
        let recorded = UnsettledMessage {
            state: record_state(entry.state, state),
            ..*entry
        };
        let _there = self.unsettled.put(*tag, recorded);
    }

    fn settle(&mut self, tag: &DeliveryTag, settled: bool, state: Option<DeliveryState>)
        ensures { self.new ≡ step self.old (Disposition tag.now settled state) }
    {
        if let Some(entry) = self.unsettled.get(tag) {
            if settled || is_terminal(state) {
                self.end(tag, &entry, record_state(entry.state, state));
            } else {
                self.record(tag, &entry, state);
            }
        }
    }

    // The peer told a delivery's state. The answer: whether it waits for us to settle too.
    pub fn disposition(
        &mut self,
        tag: &DeliveryTag,
        settled: bool,
        state: Option<DeliveryState>,
    ) -> bool
        ensures answer { result ≡ settle_back self.old settled state }
        ensures link { self.new ≡ step self.old (Disposition tag.now settled state) }
        ensures no_delivery_lost_or_ended_twice { SafeAfter self.old (Disposition tag.now settled state) self.new }
    {
        let waits = !settled
            && is_terminal(state)
            && matches!(self.settings.rcv_settle_mode, ReceiverSettleMode::Second);
        self.settle(tag, settled, state);
        waits
    }
}
