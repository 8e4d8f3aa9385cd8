// Why a crossing ends before all files are through.
use amqp::error::{MemoryError, SendError, TicketError};
use shipping::message::MessageError;
use shipping::report::{OutOfMemory, ShipError};
use std::alloc::{AllocError, AllocFailed};
use std::{fmt, io};
use voyage::receiver::ReceiveError;

#[derive(Drop)]
pub enum Trouble {
    Ship(ShipError),
    // The archive cannot take a frame in.
    Frame(ReceiveError),
    // The connection broke within a delivery that was resumed past its start: the link keeps only what it sent of it.
    BrokenTwice,
    // The archive accepted another file's bytes.
    Mixed,
    Output(io::Error),
}

impl From<ShipError> for Trouble {
    fn from(e: ShipError) -> Trouble {
        Trouble::Ship(e)
    }
}

impl From<AllocError> for Trouble {
    fn from(_e: AllocError) -> Trouble {
        Trouble::Ship(ShipError::NoMemory)
    }
}

impl<T: Drop> From<AllocFailed<T>> for Trouble {
    fn from(_e: AllocFailed<T>) -> Trouble {
        Trouble::Ship(ShipError::NoMemory)
    }
}

impl From<OutOfMemory> for Trouble {
    fn from(e: OutOfMemory) -> Trouble {
        Trouble::Ship(e.into())
    }
}

impl From<MemoryError> for Trouble {
    fn from(_e: MemoryError) -> Trouble {
        Trouble::Ship(ShipError::NoMemory)
    }
}

impl From<MessageError> for Trouble {
    fn from(e: MessageError) -> Trouble {
        Trouble::Ship(e.into())
    }
}

impl From<SendError> for Trouble {
    fn from(e: SendError) -> Trouble {
        Trouble::Ship(e.into())
    }
}

impl From<TicketError> for Trouble {
    fn from(e: TicketError) -> Trouble {
        Trouble::Ship(e.into())
    }
}

impl From<ReceiveError> for Trouble {
    fn from(e: ReceiveError) -> Trouble {
        Trouble::Frame(e)
    }
}

impl From<io::Error> for Trouble {
    fn from(e: io::Error) -> Trouble {
        Trouble::Output(e)
    }
}

impl fmt::Display for Trouble {
    fn fmt<W: fmt::Write>(&self, f: &mut fmt::Formatter<W>) -> fmt::Result {
        match self {
            Trouble::Ship(e) => write!(f, "{e}"),
            Trouble::Frame(_) => f.write_str("the archive cannot take a frame in"),
            Trouble::BrokenTwice => {
                f.write_str("a second break within a file that was resumed past its start")
            }
            Trouble::Mixed => f.write_str("the archive accepted another file's bytes"),
            Trouble::Output(e) => write!(f, "{e}"),
        }
    }
}
