// The messages of all files, end to end in one pool.
ghost use Rattle.std.specs.Prelude.{◌≡◌, true, false, None, [], ◌∷◌, ◌++◌, length, Decides, OnOk, OnErr};
ghost use Rattle.std.specs.List.{list_any};
ghost use Rattle.link.specs.Sending.{message};
ghost use Rattle.ship.specs.Cargoes.{is_own, awaits, judged, learned, loaded};
ghost use Rattle.shipping.specs.Sections.{data_section};
ghost use Rattle.shipping.specs.Texts.{is_accepted};
ghost use Rattle.unsettled.specs.Messages.{outside};

use crate::breaking::trouble::Trouble;
use amqp::condition::AmqpError;
use amqp::state::DeliveryState;
use link::delivery::Outcome;
use shipping::message::data_section;
use shipping::report::Shipment;
use std::alloc::Global;
use unsettled::message::Place;
use voyage::receiver::Part;

// A file on its way.
#[derive(Clone, Copy)]
pub struct Consignment {
    // Where its message lies in the pool.
    pub place: Place,
    pub bytes: usize,
    // How many frames brought what the archive answered for.
    pub frames: usize,
    pub outcome: Option<Outcome>,
}

#[derive(Drop)]
pub struct Cargo {
    pub pool: Vec<u8>,
    pub files: Vec<Consignment>,
}

impl Consignment {
    pub fn shipment(&self, ticket: u32) -> Shipment
        ensures { result ≡ record { frames = self.now.frames; ticket = ticket; progress = self.now.outcome } }
    {
        Shipment {
            frames: self.frames,
            ticket,
            progress: self.outcome,
        }
    }

    pub fn is_accepted(&self) -> bool
        ensures { result ≡ is_accepted self.now.outcome }
    {
        self.outcome == Some(Outcome::State(DeliveryState::Accepted))
    }

    // Whether these bytes are its message.
    pub fn is_message(&self, pool: &[u8], bytes: &[u8]) -> bool
        ensures value { result ≡ is_own pool.now bytes.now self.now }
        ensures own { Decides result ((outside self.now.place (length pool.now) ≡ false) × (bytes.now ≡ message pool.now self.now.place)) }
    {
        if self.place.is_outside(pool) {
            return false;
        }
        bytes == &pool[self.place.start..self.place.start + self.place.len]
    }

    // It is not through, and these bytes are its message.
    fn awaits(&self, pool: &[u8], bytes: &[u8]) -> bool
        ensures { result ≡ awaits pool.now bytes.now self.now }
    {
        self.outcome.is_none() && self.is_message(pool, bytes)
    }

    // What its ticket tells once the archive has answered for a delivery. No file is accepted with bytes that are not its own.
    pub fn learn(&mut self, told: Option<Outcome>, part: &Part, pool: &[u8]) -> Result<(), Trouble>
        ensures own { self.old.outcome ≡ None → is_accepted self.new.outcome ≡ true → part.now.bytes ≡ message pool.now self.new.place }
        ensures after { OnOk result (self.new ≡ learned self.old.outcome told part.now.frames self.old) }
        ensures kept { OnErr result (self.new ≡ self.old) }
    {
        if self.outcome.is_some() || told.is_none() {
            return Ok(());
        }
        let accepted = told == Some(Outcome::State(DeliveryState::Accepted));
        if accepted && !self.is_message(pool, part.bytes.as_slice()) {
            return Err(Trouble::Mixed);
        }
        self.outcome = told;
        self.frames = part.frames;
        Ok(())
    }
}

impl Cargo {
    pub fn new(heap: Global) -> Cargo
        ensures { (result.pool.items ≡ []) × (result.files.items ≡ []) }
    {
        Cargo {
            pool: Vec::new(heap),
            files: Vec::new(heap),
        }
    }

    // The file's message joins the end of the pool.
    pub fn load(&mut self, heap: Global, file: &[u8]) -> Result<(), Trouble>
        ensures pool { OnOk result (self.new.pool.items ≡ self.old.pool.items ++ data_section file.now) }
        ensures files { OnOk result (self.new.files.items ≡ self.old.files.items ++ loaded self.old.pool.items file.now ∷ []) }
    {
        let message = data_section(heap, file)?;
        let place = Place {
            start: self.pool.len(),
            len: message.len(),
        };
        self.pool.extend_from_slice(message.as_slice())?;
        self.files.push(Consignment {
            place,
            bytes: file.len(),
            frames: 0,
            outcome: None,
        })?;
        Ok(())
    }

    // Some file that is not through has these bytes as its message.
    fn is_awaited(&self, bytes: &[u8]) -> bool
        ensures { result ≡ list_any (awaits self.now.pool.items bytes.now) self.now.files.items }
    {
        let pool = self.pool.as_slice();
        self.files.iter().any(|file| file.awaits(pool, bytes))
    }

    // Accepted where they are the message of a file that is not through, and else rejected.
    pub fn judge(&self, bytes: &[u8]) -> DeliveryState
        ensures { result ≡ judged self.now.pool.items self.now.files.items bytes.now }
    {
        if self.is_awaited(bytes) {
            DeliveryState::Accepted
        } else {
            DeliveryState::Rejected(Some(AmqpError::DecodeError))
        }
    }
}
