// Delivery states (Part 3, 3.4).
ghost use Rattle.std.specs.Prelude.{◌≡◌, Some};
ghost use Rattle.amqp.specs.States.{terminal, no_further};
ghost use Rattle.amqp.specs.Texts.{condition_in, state_text};

use crate::condition::AmqpError;
use crate::text::{Or, YesNo};
use std::fmt;

// How far the receiver has come: a section of the message, and an offset in it (Part 3, 3.4.1). Such places are ordered by
// section, then by offset.
#[derive(Clone, Copy, PartialEq, Eq, PartialOrd, Ord)]
pub struct Received {
    pub section_number: u32,
    pub section_offset: u64,
}

impl Received {
    // The receiver had come no further than this.
    pub fn is_at_most(&self, other: &Received) -> bool
        ensures { result ≡ no_further self.now other.now }
    {
        self <= other
    }
}

#[derive(Clone, Copy, PartialEq, Eq)]
pub enum DeliveryState {
    Received(Received),
    Accepted,
    Rejected(Option<AmqpError>),
    Released,
    Modified {
        delivery_failed: Option<bool>,
        undeliverable_here: Option<bool>,
    },
}

impl DeliveryState {
    // A terminal state is an outcome: it no longer changes.
    pub fn is_terminal(&self) -> bool
        ensures { result ≡ terminal self.now }
    {
        !matches!(self, DeliveryState::Received(_))
    }
}

// A condition's number, or 0 without one.
fn number_of(condition: Option<AmqpError>) -> u8
    ensures { result ≡ condition_in condition }
{
    condition.map_or(0, AmqpError::number)
}

impl fmt::Display for DeliveryState {
    ghost output = { λ s. Some (state_text s) };

    fn fmt<W: fmt::Write>(&self, f: &mut fmt::Formatter<W>) -> fmt::Result {
        match *self {
            DeliveryState::Received(
                Received {
                    section_number,
                    section_offset,
                },
            ) => write!(f, "received({section_number},{section_offset})"),
            DeliveryState::Accepted => f.write_str("accepted"),
            DeliveryState::Rejected(condition) => write!(f, "rejected({})", number_of(condition)),
            DeliveryState::Released => f.write_str("released"),
            DeliveryState::Modified {
                delivery_failed,
                undeliverable_here,
            } => {
                let failed = Or(delivery_failed.map(YesNo), "absent");
                let undeliverable = Or(undeliverable_here.map(YesNo), "absent");
                write!(f, "modified({failed},{undeliverable})")
            }
        }
    }
}
