// Messages on their way out, and how deliveries end.
ghost use Rattle.std.specs.Prelude.{◌≡◌, Some};
ghost use Rattle.link.specs.Detaching.{closed_by};
ghost use Rattle.link.specs.Outcomes.{ended, recorded, outcome_of};
ghost use Rattle.link.specs.Texts.{outcome_text};

use amqp::condition::AmqpError;
use amqp::state::DeliveryState;
use amqp::tag::DeliveryTag;
use std::fmt;
use unsettled::message::Place;

// A message to send: where it lies in the pool, and what its first transfer says of it.
#[derive(Clone, Copy)]
pub struct Sendable {
    pub place: Place,
    pub message_format: u32,
    pub settled: Option<bool>,
    pub state: Option<DeliveryState>,
    pub batchable: bool,
}

// What we tell the peer of a delivery: its id in the session, and its state.
#[derive(Clone, Copy)]
pub struct Disposal {
    pub delivery_id: u32,
    pub delivery_tag: DeliveryTag,
    pub settled: bool,
    pub state: DeliveryState,
    pub batchable: bool,
}

// How a delivery ended. It is no Option, since a ticket tells one of these or none yet: of None and Some(None) nothing
// would say which is which.
#[derive(Clone, Copy, PartialEq, Eq)]
pub enum Outcome {
    State(DeliveryState),
    // It was settled with no state, and no outcome was told before.
    NoState,
    // The peer closed the link before it was settled.
    RemoteClosed,
    RemoteClosedWithError(AmqpError),
}

// Whether a state is there, and is an outcome.
pub fn is_terminal(state: Option<DeliveryState>) -> bool
    ensures { result ≡ ended state }
{
    state.is_some_and(|s| s.is_terminal())
}

// What is known after a state is told: an outcome that was told before stays (Part 3, 3.4).
pub fn record_state(
    known: Option<DeliveryState>,
    told: Option<DeliveryState>,
) -> Option<DeliveryState>
    ensures { result ≡ recorded known told }
{
    if is_terminal(known) { known } else { told }
}

// How deliveries end when the peer closes the link.
pub fn closed_by(error: Option<AmqpError>) -> Outcome
    ensures { result ≡ closed_by error }
{
    error.map_or(Outcome::RemoteClosed, Outcome::RemoteClosedWithError)
}

impl From<Option<DeliveryState>> for Outcome {
    ghost from_gives = { λ s o. o ≡ outcome_of s };

    fn from(state: Option<DeliveryState>) -> Outcome {
        match state {
            Some(s) => Outcome::State(s),
            None => Outcome::NoState,
        }
    }
}

impl fmt::Display for Outcome {
    ghost output = { λ o. Some (outcome_text o) };

    fn fmt<W: fmt::Write>(&self, f: &mut fmt::Formatter<W>) -> fmt::Result {
        match *self {
            Outcome::NoState => f.write_str("none"),
            Outcome::State(state) => write!(f, "{state}"),
            Outcome::RemoteClosed => f.write_str("RemoteClosed"),
            Outcome::RemoteClosedWithError(condition) => {
                write!(f, "RemoteClosedWithError {}", condition.number())
            }
        }
    }
}
