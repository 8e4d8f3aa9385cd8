// What became of a file.
ghost use Rattle.std.specs.Prelude.{◌≡◌, Some};
ghost use Rattle.shipping.specs.declared.report.ShipError.TheVariants.{Refused, NoMemory, Link};
ghost use Rattle.shipping.specs.Sections.{unshipped};
ghost use Rattle.shipping.specs.Texts.{is_accepted, is_pending, shipment_text, error_text, totals_text, tallied};

use crate::message::MessageError;
use amqp::error::{MemoryError, SendError, TicketError};
use amqp::state::DeliveryState;
use amqp::text::Or;
use link::delivery::Outcome;
use std::alloc::AllocError;
use std::fmt;

#[derive(Clone, Copy, PartialEq, Eq)]
pub struct Shipment {
    pub frames: usize,
    // The number of the delivery's ticket.
    pub ticket: u32,
    pub progress: Option<Outcome>,
}

#[derive(Clone, Copy, PartialEq, Eq)]
pub enum ShipError {
    // The link refused to send the message.
    Refused(SendError),
    NoMemory,
    // The link is not attached, or settles on its own.
    Link,
}

// There is too little memory for the frames or the message.
#[derive(Clone, Copy, PartialEq, Eq)]
pub struct OutOfMemory;

impl From<AllocError> for OutOfMemory {
    fn from(_e: AllocError) -> OutOfMemory {
        OutOfMemory
    }
}

impl From<MemoryError> for OutOfMemory {
    fn from(_e: MemoryError) -> OutOfMemory {
        OutOfMemory
    }
}

impl From<OutOfMemory> for ShipError {
    ghost from_gives = { λ _ r. r ≡ NoMemory };

    fn from(_e: OutOfMemory) -> ShipError {
        ShipError::NoMemory
    }
}

impl From<MessageError> for ShipError {
    ghost from_gives = { λ e r. r ≡ unshipped e };

    fn from(e: MessageError) -> ShipError {
        match e {
            MessageError::NoMemory => ShipError::NoMemory,
            // No pool is so long either.
            MessageError::TooLong => ShipError::Refused(SendError::OutsidePool),
        }
    }
}

impl From<SendError> for ShipError {
    ghost from_gives = { λ e r. r ≡ Refused e };

    fn from(e: SendError) -> ShipError {
        ShipError::Refused(e)
    }
}

impl From<TicketError> for ShipError {
    ghost from_gives = { λ _ r. r ≡ Link };

    fn from(_e: TicketError) -> ShipError {
        ShipError::Link
    }
}

impl Shipment {
    pub fn is_accepted(&self) -> bool
        ensures { result ≡ is_accepted self.now.progress }
    {
        self.progress == Some(Outcome::State(DeliveryState::Accepted))
    }

    pub fn is_pending(&self) -> bool
        ensures { result ≡ is_pending self.now.progress }
    {
        self.progress.is_none()
    }
}

impl fmt::Display for Shipment {
    ghost output = { λ s. Some (shipment_text s) };

    fn fmt<W: fmt::Write>(&self, f: &mut fmt::Formatter<W>) -> fmt::Result {
        write!(
            f,
            "{} frames, ticket {}, {}",
            self.frames,
            self.ticket,
            Or(self.progress, "pending")
        )
    }
}

impl fmt::Display for ShipError {
    ghost output = { λ s. Some (error_text s) };

    fn fmt<W: fmt::Write>(&self, f: &mut fmt::Formatter<W>) -> fmt::Result {
        match *self {
            ShipError::Refused(refusal) => write!(f, "refused {}", refusal.number()),
            ShipError::NoMemory => f.write_str("not enough memory"),
            ShipError::Link => f.write_str("the link is not attached"),
        }
    }
}

// What all shipments came to.
#[derive(Clone, Copy, PartialEq, Eq, Default)]
pub struct Totals {
    pub files: u64,
    pub frames: u64,
    pub bytes: u64,
    pub accepted: u64,
    pub pending: u64,
}

impl Totals {
    // One more file, of so many bytes.
    pub fn add(&mut self, bytes: usize, shipment: &Shipment)
        ensures { self.new ≡ tallied self.old bytes shipment.now }
    {
        self.files = self.files.saturating_add(1);
        self.frames = self.frames.saturating_add(shipment.frames as u64);
        self.bytes = self.bytes.saturating_add(bytes as u64);
        self.accepted = self
            .accepted
            .saturating_add(u64::from(shipment.is_accepted()));
        self.pending = self
            .pending
            .saturating_add(u64::from(shipment.is_pending()));
    }
}

impl fmt::Display for Totals {
    ghost output = { λ s. Some (totals_text s) };

    fn fmt<W: fmt::Write>(&self, f: &mut fmt::Formatter<W>) -> fmt::Result {
        write!(
            f,
            "{} files, {} frames, {} bytes, {} accepted, {} pending",
            self.files, self.frames, self.bytes, self.accepted, self.pending
        )
    }
}
