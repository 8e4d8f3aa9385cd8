// Why a session, and the connection below it, no longer carries frames.
use crate::condition::AmqpError;

#[derive(Clone, Copy, PartialEq, Eq)]
pub enum ConnectionStopReason {
    Closed,
    ClosedWithError(AmqpError),
    RemoteClosed,
    RemoteClosedWithError(AmqpError),
}

#[derive(Clone, Copy, PartialEq, Eq)]
pub enum SessionStopReason {
    Ended,
    EndedWithError(AmqpError),
    RemoteEnded,
    RemoteEndedWithError(AmqpError),
    ConnectionStopped(ConnectionStopReason),
}
