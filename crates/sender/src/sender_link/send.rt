// Sending a message.
ghost use Rattle.std.specs.Prelude.{◌≡◌, ◌+◌, ◌≤◌, false, length, IfOk};
ghost use Rattle.link.specs.Sending.{carrier, ready, busy, transfer_of, next_tag, tag_there, table_full};
ghost use Rattle.link.specs.Calls.{Send};
ghost use Rattle.runs.specs.Safe.{SafeAfter};
ghost use Rattle.sender.specs.Sends.{addable, planned, added, HandedOver, Sends, Uncollected};

use super::SenderLink;
use crate::ticket::{Settlement, Ticket};
use amqp::error::{LinkStateError, SendError};
use amqp::header::Transfer;
use amqp::tag::DeliveryTag;
use codec::encoder::Encoder;
use link::delivery::Sendable;
use link::state::LinkState;
use sink::sink::Sink;
use unsettled::message::UnsettledMessage;

// What an accepted send goes by.
#[derive(Clone, Copy)]
struct Plan {
    transfer: Transfer,
    share: usize,
    settled: bool,
}

impl<'a> SenderLink<'a> {
    pub(super) fn is_ready(&self) -> bool
        ensures { result ≡ ready self.now }
    {
        matches!(self.local_state, LinkState::Attached) && self.has_handles()
    }

    fn is_busy(&self) -> bool
        ensures { result ≡ busy self.now }
    {
        !(self.resume.is_empty() && self.resend.is_empty())
    }

    pub(super) fn transfer(&self, message: &Sendable) -> Transfer
        ensures { result ≡ transfer_of self.now message.now }
    {
        Transfer {
            handle: self.output_handle.unwrap_or(0),
            delivery_id: None,
            delivery_tag: Some(DeliveryTag::from_count(self.flow_state.delivery_count)),
            message_format: Some(message.message_format),
            settled: Some(self.settings.is_settled_on_send(message.settled)),
            more: false,
            state: message.state,
            resume: false,
            aborted: false,
            batchable: message.batchable,
        }
    }

    // Whether an entry of the next tag finds no place, or no seat.
    fn may_add(&self) -> Result<(), SendError>
        ensures { result ≡ addable self.now }
    {
        self.may_join(&DeliveryTag::from_count(self.flow_state.delivery_count))?;
        if !self.seats.has_free() {
            return Err(SendError::NoSeat);
        }
        Ok(())
    }

    // Only refuses.
    fn may_send<E: Encoder>(
        &self,
        encoder: &E,
        pool: &[u8],
        message: &Sendable,
    ) -> Result<Plan, SendError>
        ensures { result ≡ planned self.now (E.bytes encoder.now) pool.now message.now }
    {
        if !self.is_ready() {
            return Err(SendError::LinkState(LinkStateError::IllegalState));
        }
        if self.is_busy() {
            return Err(SendError::ListsNotEmpty);
        }
        if message.place.is_outside(pool) {
            return Err(SendError::OutsidePool);
        }
        if self.settings.is_exceeded_by(message.place.len) {
            return Err(SendError::MessageSizeExceeded);
        }
        if self.flow_state.link_credit == 0 {
            return Err(SendError::NoCredit);
        }
        let transfer = self.transfer(message);
        let share = self.share(encoder, &transfer, message.place.len)?;
        let settled = self.settings.is_settled_on_send(message.settled);
        if !settled {
            self.may_add()?;
        }
        Ok(Plan {
            transfer,
            share,
            settled,
        })
    }

    // A new tag's entry joins the table, and a seat waits for its outcome.
    fn add(&mut self, message: &Sendable)
        requires absent { tag_there (next_tag self.old) self.old ≡ false }
        requires room { table_full self.old ≡ false }
        ensures { self.new ≡ added self.old message.now }
    {
        let number = self.flow_state.delivery_count;
        let entry = UnsettledMessage {
            place: message.place,
            state: None,
            message_format: message.message_format,
            ticket: number,
        };
        let _there = self.unsettled.put(DeliveryTag::from_count(number), entry);
        self.seats.sit(number);
    }

    // Only acts: the frames go out, or the sink refuses them all.
    fn do_send<S: Sink>(
        &mut self,
        sink: &mut S,
        pool: &[u8],
        message: &Sendable,
        plan: &Plan,
    ) -> Result<Settlement, SendError>
        requires place { message.now.place.start + message.now.place.len ≤ length pool.now }
        requires absent { plan.now.settled ≡ false → tag_there (next_tag self.old) self.old ≡ false }
        requires room { plan.now.settled ≡ false → table_full self.old ≡ false }
        ensures handed_over { HandedOver self.old plan.now message.now pool.now (S.model sink.old) result self.new (S.model sink.new) }
        ensures uncollected { IfOk result Uncollected }
    {
        self.put(sink, pool, &message.place, plan.share, &plan.transfer)?;
        let number = self.flow_state.delivery_count;
        if plan.settled {
            self.flow_state.consume();
            Ok(Settlement::Settled(DeliveryTag::from_count(number)))
        } else {
            self.add(message);
            self.flow_state.consume();
            Ok(Settlement::Unsettled(Ticket::new(number)))
        }
    }

    // Sends a message in as many frames as it needs.
    pub fn send<S: Sink, E: Encoder>(
        &mut self,
        sink: &mut S,
        encoder: &E,
        pool: &[u8],
        message: &Sendable,
    ) -> Result<Settlement, SendError>
        ensures sends { Sends self.old (carrier (E.bytes encoder.now) pool.now (S.model sink.old)) message.now result self.new (S.model sink.new) }
        ensures uncollected { IfOk result Uncollected }
        ensures no_delivery_lost_or_ended_twice { SafeAfter self.old (Send (carrier (E.bytes encoder.now) pool.now (S.model sink.old)) message.now) self.new }
    {
        let plan = self.may_send(encoder, pool, message)?;
        self.do_send(sink, pool, message, &plan)
    }
}
