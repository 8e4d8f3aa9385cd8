// Sending again what the peer has no record of, one delivery a call.
ghost use Rattle.std.specs.Prelude.{◌≡◌, Some};
ghost use Rattle.std.specs.List.{slice_get};
ghost use Rattle.link.specs.Calls.{Resend};
ghost use Rattle.link.specs.Sending.{carrier};
ghost use Rattle.link.specs.Turns.{landed};
ghost use Rattle.runs.specs.Safe.{SafeAfter};
ghost use Rattle.sender.specs.Resends.{again_task, sent_on, AgainDone, Resends};

use super::SenderLink;
use amqp::error::{LinkStateError, SendError};
use amqp::tag::DeliveryTag;
use codec::encoder::Encoder;
use link::delivery::{Outcome, Sendable};
use link::resumption::{Progress, Task};
use sink::sink::Sink;
use unsettled::message::UnsettledMessage;
use unsettled::slot::Slot;

impl<'a> SenderLink<'a> {
    // A delivery as a new message, of which nothing is asked; of its new tag the peer has told nothing, so its entry has no state.
    fn again(&self, slot: &Slot<UnsettledMessage>) -> Task
        ensures { result ≡ again_task self.now slot.now }
    {
        let UnsettledMessage {
            place,
            message_format,
            ..
        } = slot.entry;
        let message = Sendable {
            place,
            message_format,
            settled: None,
            state: None,
            batchable: false,
        };
        let settled = self.settings.is_settled_on_send(None);
        let entry = Slot {
            tag: DeliveryTag::from_count(self.flow_state.delivery_count),
            entry: UnsettledMessage {
                state: None,
                ..slot.entry
            },
        };
        Task {
            transfer: self.transfer(&message),
            payload: place,
            joins: (!settled).then_some(entry),
            ends: None,
        }
    }

    // It took a credit and is off its list; where it went out settled it has ended.
    fn take_off(&mut self, entry: &UnsettledMessage, settled: bool)
        ensures { self.new ≡ landed self.old (sent_on settled entry.now self.old) }
    {
        self.flow_state.consume();
        let _slot = self.resend.pop_front();
        if settled {
            self.seats.tell(entry.ticket, Outcome::from(entry.state));
        }
    }

    fn send_again<S: Sink, E: Encoder>(
        &mut self,
        sink: &mut S,
        encoder: &E,
        pool: &[u8],
        slot: &Slot<UnsettledMessage>,
    ) -> Result<Progress, SendError>
        requires { slice_get self.old.held.resend 0 ≡ Some slot.now }
        ensures { AgainDone self.old.held.resend self.old (carrier (E.bytes encoder.now) pool.now (S.model sink.old)) result self.new (S.model sink.new) }
    {
        if slot.entry.place.is_outside(pool) {
            return Err(SendError::OutsidePool);
        }
        if self.flow_state.link_credit == 0 {
            return Err(SendError::NoCredit);
        }
        let task = self.again(slot);
        self.carry(sink, encoder, pool, &task)?;
        self.take_off(&slot.entry, task.joins.is_none());
        Ok(Progress::Worked)
    }

    // Sends the first delivery of the resend list again, or says that none is left.
    pub fn resend<S: Sink, E: Encoder>(
        &mut self,
        sink: &mut S,
        encoder: &E,
        pool: &[u8],
    ) -> Result<Progress, SendError>
        ensures resends { Resends self.old (carrier (E.bytes encoder.now) pool.now (S.model sink.old)) result self.new (S.model sink.new) }
        ensures no_delivery_lost_or_ended_twice { SafeAfter self.old (Resend (carrier (E.bytes encoder.now) pool.now (S.model sink.old))) self.new }
    {
        if !self.is_ready() {
            return Err(SendError::LinkState(LinkStateError::IllegalState));
        }
        if !self.resume.is_empty() {
            return Err(SendError::ListsNotEmpty);
        }
        match self.resend.first() {
            None => Ok(Progress::Done),
            Some(slot) => self.send_again(sink, encoder, pool, &slot),
        }
    }
}
