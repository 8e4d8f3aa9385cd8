// What a call refuses. Each refusal has a number, by which docs/RULES.md and the programs name it: its case's discriminant, which
// only a method of its own enum can read, or a match where a case carries a value and has none.
ghost use Rattle.std.specs.Prelude.{◌≡◌};
ghost use Rattle.amqp.specs.Refusals.{make_number, state_number, sink_number, send_number, attach_number, detach_number, ticket_number, memory_number, of_sink};

use crate::condition::AmqpError;
use crate::stop::SessionStopReason;

// Making a link or a sink.
#[derive(Clone, Copy, PartialEq, Eq)]
pub enum MakeError {
    // A size is outside its bounds.
    Sizes = 1,
}

// The state of a link, or of what carries its frames.
#[derive(Clone, Copy, PartialEq, Eq)]
pub enum LinkStateError {
    IllegalState,
    SessionStopped(SessionStopReason),
}

// Putting a frame into a sink.
#[derive(Clone, Copy, PartialEq, Eq)]
pub enum SinkError {
    SessionStopped(SessionStopReason),
    PayloadTooWide,
    SinkFull,
}

// Sending a message.
#[derive(Clone, Copy, PartialEq, Eq)]
pub enum SendError {
    LinkState(LinkStateError),
    // The message does not lie within the pool, or the pool is too long.
    OutsidePool,
    // The message is longer than both ends allow.
    MessageSizeExceeded,
    // Deliveries still wait to be resumed or sent again.
    ListsNotEmpty,
    NoCredit,
    TableFull,
    NoSeat,
    TagInTable,
    // A frame has no room for the payload beside its header.
    FrameTooSmall,
    SinkFull,
    PayloadTooWide,
}

// The peer's attach.
#[derive(Clone, Copy, PartialEq, Eq)]
pub enum SenderAttachError {
    IllegalState = 2,
    IncomingTargetIsNone,
    SndSettleModeNotSupported,
    // In the peer's map of unsettled deliveries a tag stands twice, or is too long.
    IllegalTag,
    // The peer's map is too large, or the resume list too short for our table.
    TooManyUnsettled,
    OutsidePool,
}

// The peer's detach: what refuses it, or the error that it brought.
#[derive(Clone, Copy, PartialEq, Eq)]
pub enum ApplyRemoteDetachError {
    IllegalState,
    // The deliveries that come back find no room in the table, or their tag there.
    TableFull,
    TagInTable,
    RemoteDetachedWithError(AmqpError),
    RemoteClosedWithError(AmqpError),
}

// A ticket that is looked at or collected.
#[derive(Clone, Copy, PartialEq, Eq)]
pub enum TicketError {
    // No seat has its number.
    NoSeat = 19,
}

// Memory handed in for an answer.
#[derive(Clone, Copy, PartialEq, Eq)]
pub enum MemoryError {
    TooShort = 20,
}

impl MakeError {
    pub fn number(self) -> u8
        ensures { result ≡ make_number self }
    {
        self as u8
    }
}

impl LinkStateError {
    pub fn number(self) -> u8
        ensures { result ≡ state_number self }
    {
        match self {
            LinkStateError::IllegalState => 2,
            LinkStateError::SessionStopped(_) => 15,
        }
    }
}

impl SinkError {
    pub fn number(self) -> u8
        ensures { result ≡ sink_number self }
    {
        match self {
            SinkError::SessionStopped(_) => 15,
            SinkError::SinkFull => 16,
            SinkError::PayloadTooWide => 17,
        }
    }
}

impl SendError {
    pub fn number(self) -> u8
        ensures { result ≡ send_number self }
    {
        match self {
            SendError::LinkState(e) => e.number(),
            SendError::OutsidePool => 7,
            SendError::MessageSizeExceeded => 8,
            SendError::ListsNotEmpty => 9,
            SendError::NoCredit => 10,
            SendError::TableFull => 11,
            SendError::NoSeat => 12,
            SendError::TagInTable => 13,
            SendError::FrameTooSmall => 14,
            SendError::SinkFull => 16,
            SendError::PayloadTooWide => 17,
        }
    }
}

impl SenderAttachError {
    pub fn number(self) -> u8
        ensures { result ≡ attach_number self }
    {
        self as u8
    }
}

impl ApplyRemoteDetachError {
    // None where the detach was applied.
    pub fn number(self) -> Option<u8>
        ensures { result ≡ detach_number self }
    {
        match self {
            ApplyRemoteDetachError::IllegalState => Some(2),
            ApplyRemoteDetachError::TableFull => Some(11),
            ApplyRemoteDetachError::TagInTable => Some(13),
            ApplyRemoteDetachError::RemoteDetachedWithError(_)
            | ApplyRemoteDetachError::RemoteClosedWithError(_) => None,
        }
    }
}

impl TicketError {
    pub fn number(self) -> u8
        ensures { result ≡ ticket_number self }
    {
        self as u8
    }
}

impl MemoryError {
    pub fn number(self) -> u8
        ensures { result ≡ memory_number self }
    {
        self as u8
    }
}

// A sink's refusal goes up whole: the reason of a stop stays within it.
impl From<SinkError> for SendError {
    ghost from_gives = { λ e r. r ≡ of_sink e };

    fn from(e: SinkError) -> SendError {
        match e {
            SinkError::SessionStopped(reason) => {
                SendError::LinkState(LinkStateError::SessionStopped(reason))
            }
            SinkError::PayloadTooWide => SendError::PayloadTooWide,
            SinkError::SinkFull => SendError::SinkFull,
        }
    }
}
