// Why a sink is stopped: printed and read.
ghost use Rattle.std.specs.Prelude.{◌≡◌, Some, codes};
ghost use Rattle.scenario_text.specs.Reading.{Reads, Any};
ghost use Rattle.scenario_text.specs.Reasons.{connection_text, session_text};

use crate::condition::read_error;
use crate::inside::inside;
use amqp::stop::{ConnectionStopReason, SessionStopReason};
use std::fmt;

#[derive(Clone, Copy)]
pub struct ConnectionReason(pub ConnectionStopReason);

impl fmt::Display for ConnectionReason {
    ghost output = { λ r. Some (connection_text r.0) };

    fn fmt<W: fmt::Write>(&self, f: &mut fmt::Formatter<W>) -> fmt::Result {
        match self.0 {
            ConnectionStopReason::Closed => f.write_str("Closed"),
            ConnectionStopReason::ClosedWithError(e) => {
                write!(f, "ClosedWithError({})", e.number())
            }
            ConnectionStopReason::RemoteClosed => f.write_str("RemoteClosed"),
            ConnectionStopReason::RemoteClosedWithError(e) => {
                write!(f, "RemoteClosedWithError({})", e.number())
            }
        }
    }
}

#[derive(Clone, Copy)]
pub struct SessionReason(pub SessionStopReason);

impl fmt::Display for SessionReason {
    ghost output = { λ r. Some (session_text r.0) };

    fn fmt<W: fmt::Write>(&self, f: &mut fmt::Formatter<W>) -> fmt::Result {
        match self.0 {
            SessionStopReason::Ended => f.write_str("Ended"),
            SessionStopReason::EndedWithError(e) => write!(f, "EndedWithError({})", e.number()),
            SessionStopReason::RemoteEnded => f.write_str("RemoteEnded"),
            SessionStopReason::RemoteEndedWithError(e) => {
                write!(f, "RemoteEndedWithError({})", e.number())
            }
            SessionStopReason::ConnectionStopped(reason) => {
                write!(f, "ConnectionStopped({})", ConnectionReason(reason))
            }
        }
    }
}

pub fn read_session_reason(text: &str) -> Option<SessionStopReason>
    ensures { Reads session_text Any text.now result }
{
    match text {
        "Ended" => Some(SessionStopReason::Ended),
        "RemoteEnded" => Some(SessionStopReason::RemoteEnded),
        _ => read_session_cause(text),
    }
}

fn read_session_cause(text: &str) -> Option<SessionStopReason>
    ensures { (text.now ≡ codes "Ended" → ⊥) → (text.now ≡ codes "RemoteEnded" → ⊥) → Reads session_text Any text.now result }
{
    if let Some(error) = inside(text, "EndedWithError(") {
        return Some(SessionStopReason::EndedWithError(read_error(error)?));
    }
    if let Some(error) = inside(text, "RemoteEndedWithError(") {
        return Some(SessionStopReason::RemoteEndedWithError(read_error(error)?));
    }
    let reason = inside(text, "ConnectionStopped(")?;
    Some(SessionStopReason::ConnectionStopped(read_connection_reason(reason)?))
}

pub(crate) fn read_connection_reason(text: &str) -> Option<ConnectionStopReason>
    ensures { Reads connection_text Any text.now result }
{
    match text {
        "Closed" => Some(ConnectionStopReason::Closed),
        "RemoteClosed" => Some(ConnectionStopReason::RemoteClosed),
        _ => read_connection_cause(text),
    }
}

fn read_connection_cause(text: &str) -> Option<ConnectionStopReason>
    ensures { (text.now ≡ codes "Closed" → ⊥) → (text.now ≡ codes "RemoteClosed" → ⊥) → Reads connection_text Any text.now result }
{
    if let Some(error) = inside(text, "ClosedWithError(") {
        return Some(ConnectionStopReason::ClosedWithError(read_error(error)?));
    }
    let error = inside(text, "RemoteClosedWithError(")?;
    Some(ConnectionStopReason::RemoteClosedWithError(read_error(error)?))
}
