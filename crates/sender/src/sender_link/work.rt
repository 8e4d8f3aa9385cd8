// Working off what came back with the link, one item a call.
ghost use Rattle.std.specs.Prelude.{◌≡◌, ◌+◌, ◌≤◌, length, drop, Some};
ghost use Rattle.std.specs.List.{slice_get};
ghost use Rattle.amqp.specs.declared.error.SendError.TheVariants.{TableFull};
ghost use Rattle.link.specs.declared.resumption.Progress.TheVariants.{Worked};
ghost use Rattle.link.specs.Calls.{Work};
ghost use Rattle.link.specs.Rows.{gated, row, unless};
ghost use Rattle.link.specs.Sending.{carrier};
ghost use Rattle.link.specs.Turns.{stay, landed};
ghost use Rattle.link.specs.Working.{working, coming_back, resume_task, restate_task, abort_task, settling_task, resend_full};
ghost use Rattle.runs.specs.Safe.{SafeAfter};
ghost use Rattle.sender.specs.Views.{resuming_with};
ghost use Rattle.sender.specs.Works.{Inside, Finished, MessageDone, ItemDone, postponed, Works};

use super::SenderLink;
use amqp::error::{LinkStateError, SendError};
use amqp::header::Transfer;
use amqp::state::{DeliveryState, Received};
use amqp::tag::DeliveryTag;
use codec::encoder::Encoder;
use link::resumption::{Progress, ResumingDelivery, Task};
use sections::split_off_at_section_and_offset;
use sink::sink::Sink;
use unsettled::message::{Place, UnsettledMessage};
use unsettled::slot::Slot;

impl<'a> SenderLink<'a> {
    fn is_working(&self) -> bool
        ensures { result ≡ working self.now }
    {
        self.local_state.may_work() && self.has_handles()
    }

    // The transfer of a delivery that comes back, under its old tag.
    fn returning(
        &self,
        tag: DeliveryTag,
        message_format: u32,
        settled: Option<bool>,
        state: Option<DeliveryState>,
        aborted: bool,
    ) -> Transfer
        ensures { result ≡ coming_back self.now tag message_format settled state aborted }
    {
        Transfer {
            handle: self.output_handle.unwrap_or(0),
            delivery_id: None,
            delivery_tag: Some(tag),
            message_format: Some(message_format),
            settled,
            more: false,
            state,
            resume: true,
            aborted,
            batchable: false,
        }
    }

    // From the place that the peer came to, or from the start where that is not found; the entry keeps what goes out.
    fn resuming(&self, slot: &Slot<UnsettledMessage>, peer: Received, pool: &[u8]) -> Task
        requires { slot.now.entry.place.start + slot.now.entry.place.len ≤ length pool.now }
        ensures value { result ≡ resume_task self.now pool.now slot.now peer }
        ensures inside { Inside result pool.now }
    {
        let Place { start, len } = slot.entry.place;
        let found = split_off_at_section_and_offset(&pool[start..start + len], &peer);
        let from = found.unwrap_or(0);
        let reached = found.map_or(
            Received {
                section_number: 0,
                section_offset: 0,
            },
            |_| peer,
        );
        let place = Place {
            start: start + from,
            len: len - from,
        };
        let state = Some(DeliveryState::Received(reached));
        let entry = UnsettledMessage {
            place,
            state: None,
            ..slot.entry
        };
        Task {
            transfer: self.returning(slot.tag, entry.message_format, Some(false), state, false),
            payload: place,
            joins: Some(Slot {
                tag: slot.tag,
                entry,
            }),
            ends: None,
        }
    }

    // All of the message, with the outcome that stands here.
    fn restating(&self, slot: &Slot<UnsettledMessage>) -> Task
        ensures { result ≡ restate_task self.now slot.now }
    {
        let UnsettledMessage {
            place,
            state,
            message_format,
            ..
        } = slot.entry;
        Task {
            transfer: self.returning(slot.tag, message_format, Some(false), state, false),
            payload: place,
            joins: Some(*slot),
            ends: None,
        }
    }

    fn aborting(&self, slot: &Slot<UnsettledMessage>) -> Task
        ensures { result ≡ abort_task self.now slot.now }
    {
        Task {
            transfer: self.returning(slot.tag, slot.entry.message_format, None, None, true),
            payload: Place::default(),
            joins: None,
            ends: Some(slot.entry.ticket),
        }
    }

    fn settling(&self, tag: DeliveryTag, message_format: u32, outcome: DeliveryState) -> Task
        ensures { result ≡ settling_task self.now tag message_format outcome }
    {
        Task {
            transfer: self.returning(tag, message_format, Some(true), Some(outcome), false),
            payload: Place::default(),
            joins: None,
            ends: None,
        }
    }

    // A delivery that waits to be sent again has its turn in the resend list.
    fn postpone(&mut self, slot: Slot<UnsettledMessage>) -> Result<Progress, SendError>
        ensures answer { result ≡ gated (row (resend_full self.old) TableFull) Worked }
        ensures link { self.new ≡ landed self.old (unless (row (resend_full self.old) TableFull) (stay self.old) (postponed self.old slot)) }
    {
        if self.resend.is_full() {
            return Err(SendError::TableFull);
        }
        let _room = self.resend.push(slot);
        self.next_item();
        Ok(Progress::Worked)
    }

    // The first item is off the list.
    fn next_item(&mut self)
        ensures { self.new ≡ resuming_with (drop 1 self.old.held.resume) self.old }
    {
        let _item = self.resume.pop_front();
    }

    // Carries a task out, and takes its item off the list.
    fn carry_first<S: Sink, E: Encoder>(
        &mut self,
        sink: &mut S,
        encoder: &E,
        pool: &[u8],
        task: &Task,
    ) -> Result<Progress, SendError>
        requires { Inside task.now pool.now }
        ensures { Finished self.old (carrier (E.bytes encoder.now) pool.now (S.model sink.old)) task.now result self.new (S.model sink.new) }
    {
        self.carry(sink, encoder, pool, task)?;
        self.next_item();
        Ok(Progress::Worked)
    }

    fn resume_first<S: Sink, E: Encoder>(
        &mut self,
        sink: &mut S,
        encoder: &E,
        pool: &[u8],
        slot: &Slot<UnsettledMessage>,
        peer: Received,
    ) -> Result<Progress, SendError>
        ensures { MessageDone slot.now (resume_task self.old pool.now slot.now peer) self.old (carrier (E.bytes encoder.now) pool.now (S.model sink.old)) result self.new (S.model sink.new) }
    {
        if slot.entry.place.is_outside(pool) {
            return Err(SendError::OutsidePool);
        }
        let task = self.resuming(slot, peer, pool);
        self.carry_first(sink, encoder, pool, &task)
    }

    fn restate_first<S: Sink, E: Encoder>(
        &mut self,
        sink: &mut S,
        encoder: &E,
        pool: &[u8],
        slot: &Slot<UnsettledMessage>,
    ) -> Result<Progress, SendError>
        ensures { MessageDone slot.now (restate_task self.old slot.now) self.old (carrier (E.bytes encoder.now) pool.now (S.model sink.old)) result self.new (S.model sink.new) }
    {
        if slot.entry.place.is_outside(pool) {
            return Err(SendError::OutsidePool);
        }
        let task = self.restating(slot);
        self.carry_first(sink, encoder, pool, &task)
    }

    fn work_on<S: Sink, E: Encoder>(
        &mut self,
        sink: &mut S,
        encoder: &E,
        pool: &[u8],
        item: &ResumingDelivery,
    ) -> Result<Progress, SendError>
        requires { slice_get self.old.held.resume 0 ≡ Some item.now }
        ensures { ItemDone self.old.held.resume self.old (carrier (E.bytes encoder.now) pool.now (S.model sink.old)) result self.new (S.model sink.new) }
    {
        match *item {
            ResumingDelivery::Resend(slot) => self.postpone(slot),
            ResumingDelivery::Resume(slot, peer) => {
                self.resume_first(sink, encoder, pool, &slot, peer)
            }
            ResumingDelivery::Abort(slot) => {
                let task = self.aborting(&slot);
                self.carry_first(sink, encoder, pool, &task)
            }
            ResumingDelivery::RestateOutcome(slot) => {
                self.restate_first(sink, encoder, pool, &slot)
            }
            ResumingDelivery::Settling {
                tag,
                message_format,
                outcome,
            } => {
                let task = self.settling(tag, message_format, outcome);
                self.carry_first(sink, encoder, pool, &task)
            }
        }
    }

    // Does what is to be done with the first delivery that came back, or says that none is left.
    pub fn work<S: Sink, E: Encoder>(
        &mut self,
        sink: &mut S,
        encoder: &E,
        pool: &[u8],
    ) -> Result<Progress, SendError>
        ensures works { Works self.old (carrier (E.bytes encoder.now) pool.now (S.model sink.old)) result self.new (S.model sink.new) }
        ensures no_delivery_lost_or_ended_twice { SafeAfter self.old (Work (carrier (E.bytes encoder.now) pool.now (S.model sink.old))) self.new }
    {
        if !self.is_working() {
            return Err(SendError::LinkState(LinkStateError::IllegalState));
        }
        match self.resume.first() {
            None => Ok(Progress::Done),
            Some(item) => self.work_on(sink, encoder, pool, &item),
        }
    }
}
