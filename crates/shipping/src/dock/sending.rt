// Sending a message, however little the sink holds.
ghost use Rattle.std.specs.Prelude.{◌≡◌, ◌≢◌, length, [], Err, IfOk, OnOk};
ghost use Rattle.link.specs.Calls.{Flow, step};
ghost use Rattle.link.specs.Sending.{carrier};
ghost use Rattle.sender.specs.Sends.{Sends};
ghost use Rattle.shipping.specs.declared.report.ShipError.TheVariants.{NoMemory};
ghost use Rattle.shipping.specs.Archives.{took_all, granting};
ghost use Rattle.shipping.specs.Docks.{Roomier, plain, Sending, SendingAgain};
ghost use Rattle.shipping.specs.Unloading.{Emptied};

use super::Dock;
use crate::outbox::Outbox;
use crate::report::{OutOfMemory, ShipError};
use amqp::error::SendError;
use codec::encoder::Encoder;
use link::delivery::Sendable;
use sender::ticket::Settlement;
use sink::sink::Sink;
use unsettled::message::Place;

// A message that is the whole pool.
pub fn plain(len: usize) -> Sendable
    ensures { result ≡ plain len }
{
    Sendable {
        place: Place { start: 0, len },
        message_format: 0,
        settled: None,
        state: None,
        batchable: false,
    }
}

impl<'a, S: Outbox> Dock<'a, S> {
    // The archive grants its credit anew, from what it has seen.
    pub(super) fn grant(&mut self)
        ensures link { self.new.link ≡ step self.old.link (Flow (granting self.old.credit self.old.archive)) }
        ensures sink { self.new.sink ≡ self.old.sink }
        ensures credit { self.new.credit ≡ self.old.credit }
    {
        let flow = self.archive.grant(self.credit);
        let _ = self.link.flow(&flow);
    }

    // The archive reads all that waits: how many frames there were.
    pub(super) fn unload(&mut self) -> Result<usize, OutOfMemory>
        ensures link { self.new.link ≡ self.old.link }
        ensures sink { OnOk result (Emptied self.old.sink self.new.sink) }
        ensures archive { OnOk result (self.new.archive ≡ took_all self.old.sink.waiting self.old.archive) }
        ensures count { IfOk result (λ n. n ≡ length self.old.sink.waiting) }
        ensures credit { self.new.credit ≡ self.old.credit }
    {
        self.sink
            .unload(self.heap, &mut self.out, &mut self.log, &mut self.archive)
    }

    // Reads the sink out, or makes it larger where nothing waits in it.
    fn make_room(&mut self) -> Result<(), OutOfMemory>
        ensures link { self.new.link ≡ self.old.link }
        ensures sink { OnOk result (Roomier self.old.sink self.new.sink) }
        ensures archive { OnOk result (self.new.archive ≡ took_all self.old.sink.waiting self.old.archive) }
        ensures credit { self.new.credit ≡ self.old.credit }
    {
        if self.unload()? == 0 {
            let places = self.sink.vacancy().saturating_mul(2).max(1);
            self.sink = S::with_places(self.heap, places, self.sink.widest())?;
        }
        Ok(())
    }

    fn try_send<E: Encoder>(&mut self, encoder: &E, message: &[u8]) -> Result<Settlement, SendError>
        ensures sends { Sends self.old.link (carrier (E.bytes encoder.now) message.now self.old.sink) (plain (length message.now)) result self.new.link self.new.sink }
        ensures archive { self.new.archive ≡ self.old.archive }
        ensures credit { self.new.credit ≡ self.old.credit }
    {
        self.link
            .send(&mut self.sink, encoder, message, &plain(message.len()))
    }

    // Tries until the sink has room for all frames of the message.
    fn send_in_room<E: Encoder>(
        &mut self,
        encoder: &E,
        message: &[u8],
    ) -> Result<Settlement, ShipError>
        ensures sends { Sending self.old.link (E.bytes encoder.now) message.now self.old.sink result self.new.link self.new.sink }
        ensures archive { self.old.sink.waiting ≡ [] → result ≢ Err NoMemory → self.new.archive ≡ self.old.archive }
        ensures credit { self.new.credit ≡ self.old.credit }
    {
        loop {
            match self.try_send(encoder, message) {
                Ok(settlement) => return Ok(settlement),
                // Compared and not matched, so that the proof knows of the error below that it is another; and no `?`, which would
                // leave this arm out.
                Err(e) if e == SendError::SinkFull => self.make_room()?,
                Err(e) => return Err(e.into()),
            }
        }
    }

    // The same, once more where the credit was used up.
    pub(super) fn send<E: Encoder>(
        &mut self,
        encoder: &E,
        message: &[u8],
    ) -> Result<Settlement, ShipError>
        ensures sends { SendingAgain self.old.link self.old.credit self.old.archive (E.bytes encoder.now) message.now self.old.sink result self.new.link self.new.sink }
        ensures credit { self.new.credit ≡ self.old.credit }
    {
        match self.send_in_room(encoder, message) {
            Ok(settlement) => Ok(settlement),
            // Compared and not matched, so that the proof knows of the error below that it is another.
            Err(e) if e == ShipError::Refused(SendError::NoCredit) => {
                self.grant();
                self.send_in_room(encoder, message)
            }
            Err(e) => Err(e),
        }
    }
}
