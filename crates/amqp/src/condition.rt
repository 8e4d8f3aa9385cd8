// Error conditions, in the order of Part 2, 2.8.15.
ghost use Rattle.std.specs.Prelude.{◌≡◌};
ghost use Rattle.amqp.specs.States.{condition_number};

#[derive(Clone, Copy, PartialEq, Eq)]
pub enum AmqpError {
    InternalError = 1,
    NotFound,
    UnauthorizedAccess,
    DecodeError,
    ResourceLimitExceeded,
    NotAllowed,
    InvalidField,
    NotImplemented,
    ResourceLocked,
    PreconditionFailed,
    ResourceDeleted,
    IllegalState,
    FrameSizeTooSmall,
}

impl AmqpError {
    // Its place in the standard's list, from 1.
    pub fn number(self) -> u8
        ensures { result ≡ condition_number self }
    {
        self as u8
    }
}
