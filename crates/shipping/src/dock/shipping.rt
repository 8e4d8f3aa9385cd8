// Shipping a file: its message is sent, read and judged at the other end, and the ticket collected.
ghost use Rattle.std.specs.Prelude.{◌≡◌, length, IfOk, OnOk};
ghost use Rattle.shipping.specs.Archives.{took_all};
ghost use Rattle.shipping.specs.Docks.{Answered, Settling, AtRest, Shipping, ShippingFile};
ghost use Rattle.shipping.specs.Unloading.{Emptied};

use super::Dock;
use crate::message::data_section;
use crate::outbox::Outbox;
use crate::report::{OutOfMemory, ShipError, Shipment};
use codec::encoder::Encoder;
use sender::ticket::{Settlement, Ticket};
use std::mem;

impl<'a, S: Outbox> Dock<'a, S> {
    // The archive reads what waits, and answers for the message that it makes: how many frames there were.
    fn take_in(&mut self, message: &[u8]) -> Result<usize, OutOfMemory>
        ensures sink { IfOk result (λ n. Emptied self.old.sink self.new.sink × (n ≡ length self.old.sink.waiting)) }
        ensures link { OnOk result (Answered (took_all self.old.sink.waiting self.old.archive) message.now self.old.link self.new.link) }
        ensures credit { self.new.credit ≡ self.old.credit }
    {
        let frames = self.unload()?;
        if let Some((tag, state)) = self.archive.answer(message) {
            let _ = self.link.disposition(&tag, true, Some(state));
        }
        Ok(frames)
    }

    // The ticket is collected on every way out.
    fn settle(&mut self, ticket: Ticket, message: &[u8]) -> Result<Shipment, ShipError>
        ensures settles { Settling self.old.link self.old.sink self.old.archive message.now ticket.number result self.new.link self.new.sink }
        ensures credit { self.new.credit ≡ self.old.credit }
    {
        let number = ticket.number();
        let taken = self.take_in(message);
        let told = self.link.collect(ticket);
        Ok(Shipment {
            frames: taken?,
            ticket: number,
            progress: told?,
        })
    }

    fn ship_message<E: Encoder>(
        &mut self,
        encoder: &E,
        message: &[u8],
    ) -> Result<Shipment, ShipError>
        ensures ships { AtRest self.old.link self.old.sink → Shipping self.old.link self.old.credit self.old.archive (E.bytes encoder.now) message.now self.old.sink result self.new.link self.new.sink }
        ensures credit { self.new.credit ≡ self.old.credit }
    {
        match self.send(encoder, message)? {
            Settlement::Unsettled(ticket) => self.settle(ticket, message),
            Settlement::Settled(_) => Err(ShipError::Link),
        }
    }

    // Ships a file. Where no delivery is under way before, it is accepted, or refused and nothing is under way.
    pub fn ship<E: Encoder>(&mut self, encoder: &E, file: &[u8]) -> Result<Shipment, ShipError>
        ensures ships { AtRest self.old.link self.old.sink → ShippingFile self.old.link self.old.credit self.old.archive (E.bytes encoder.now) file.now self.old.sink result self.new.link self.new.sink }
        ensures credit { self.new.credit ≡ self.old.credit }
    {
        let message = data_section(self.heap, file)?;
        self.ship_message(encoder, message.as_slice())
    }

    // What was logged since it was last taken.
    pub fn take_log(&mut self) -> Vec<u8>
        ensures { self.new ≡ self.old }
    {
        mem::replace(&mut self.log, Vec::new(self.heap))
    }
}
