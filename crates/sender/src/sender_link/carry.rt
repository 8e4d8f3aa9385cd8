// What the calls that put a delivery's frames have in common.
ghost use Rattle.std.specs.Prelude.{◌≡◌, ◌+◌, ◌≤◌, false, length, Some};
ghost use Rattle.link.specs.Rows.{first, gated, row};
ghost use Rattle.link.specs.Sending.{carrier, narrow, handled, join_rows, message, table_full, tag_there, sink_row, cut, frames_needed};
ghost use Rattle.link.specs.Turns.{landed};
ghost use Rattle.link.specs.Working.{tasked};
ghost use Rattle.amqp.specs.declared.error.SendError.TheVariants.{FrameTooSmall};
ghost use Rattle.sink.specs.Frames.{After};
ghost use Rattle.sender.specs.Tasks.{shared, carriable};
ghost use Rattle.sender.specs.Works.{Inside, Carried};

use super::SenderLink;
use amqp::error::SendError;
use amqp::header::Transfer;
use amqp::tag::DeliveryTag;
use codec::encoder::{Encoder, measure};
use link::delivery::Outcome;
use link::resumption::Task;
use sink::sink::Sink;
use sink::split::split;
use unsettled::message::Place;

// Whether no frame fits, or only empty ones for a message that is not.
fn is_narrow(frame: usize, size: usize, len: usize) -> bool
    ensures { result ≡ narrow frame size len }
{
    frame < 4 || frame - 4 < size || (frame - 4 == size && len > 0)
}

impl<'a> SenderLink<'a> {
    // No frame goes out before both ends have named their handles.
    pub(super) fn has_handles(&self) -> bool
        ensures { result ≡ handled self.now }
    {
        self.output_handle.is_some() && self.input_handle.is_some()
    }

    // What each frame of the transfer has left for a payload of `len` bytes.
    pub(super) fn share<E: Encoder>(
        &self,
        encoder: &E,
        transfer: &Transfer,
        len: usize,
    ) -> Result<usize, SendError>
        ensures { result ≡ shared self.now (E.bytes encoder.now) transfer.now len }
    {
        let mut transfer = *transfer;
        let size = measure(&mut transfer, encoder);
        let frame = self.settings.max_frame_size;
        if is_narrow(frame, size, len) {
            return Err(SendError::FrameTooSmall);
        }
        Ok(frame.saturating_sub(4).saturating_sub(size))
    }

    // Whether an entry of this tag finds no place, or its tag there.
    pub(super) fn may_join(&self, tag: &DeliveryTag) -> Result<(), SendError>
        ensures { result ≡ gated (first (join_rows tag.now self.now)) tt }
    {
        if self.unsettled.is_full() {
            return Err(SendError::TableFull);
        }
        if self.unsettled.contains(tag) {
            return Err(SendError::TagInTable);
        }
        Ok(())
    }

    // Puts what lies at a place of the pool in as many frames as it needs, or none.
    pub(super) fn put<S: Sink>(
        &self,
        sink: &mut S,
        pool: &[u8],
        place: &Place,
        share: usize,
        transfer: &Transfer,
    ) -> Result<(), SendError>
        requires { place.now.start + place.now.len ≤ length pool.now }
        ensures answer { result ≡ gated (sink_row (S.model sink.old) share (message pool.now place.now)) tt }
        ensures sink { After (sink_row (S.model sink.old) share (message pool.now place.now)) (S.model sink.old) (S.model sink.new) (cut self.now transfer.now share (message pool.now place.now)) (frames_needed share (message pool.now place.now)) }
    {
        let end = place.start + place.len;
        let handle = self.input_handle.unwrap_or(0);
        split(sink, &pool[place.start..end], share, handle, transfer)?;
        Ok(())
    }

    // Only refuses.
    fn may_carry<E: Encoder>(&self, encoder: &E, task: &Task) -> Result<usize, SendError>
        ensures { result ≡ carriable self.now (E.bytes encoder.now) task.now }
    {
        let share = self.share(encoder, &task.transfer, task.payload.len)?;
        if let Some(slot) = &task.joins {
            self.may_join(&slot.tag)?;
        }
        Ok(share)
    }

    // Only acts: the entry joins the table, or the delivery ends.
    fn finish(&mut self, task: &Task)
        requires absent { (e : _) → task.now.joins ≡ Some e → tag_there e.tag self.old ≡ false }
        requires room { (e : _) → task.now.joins ≡ Some e → table_full self.old ≡ false }
        ensures { self.new ≡ landed self.old (tasked self.old self.old.held.resume task.now) }
    {
        if let Some(slot) = task.joins {
            let _there = self.unsettled.put(slot.tag, slot.entry);
        }
        if let Some(number) = task.ends {
            self.seats.tell(number, Outcome::NoState);
        }
    }

    // What is to be put for a delivery goes out, and the delivery is where it then belongs; or nothing happens.
    pub(super) fn carry<S: Sink, E: Encoder>(
        &mut self,
        sink: &mut S,
        encoder: &E,
        pool: &[u8],
        task: &Task,
    ) -> Result<(), SendError>
        requires { Inside task.now pool.now }
        ensures { Carried self.old (carrier (E.bytes encoder.now) pool.now (S.model sink.old)) task.now result self.new (S.model sink.new) }
    {
        let share = self.may_carry(encoder, task)?;
        self.put(sink, pool, &task.payload, share, &task.transfer)?;
        self.finish(task);
        Ok(())
    }
}
