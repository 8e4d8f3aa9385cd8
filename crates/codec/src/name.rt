// The names of error conditions (Part 2, 2.8.15): by a match, since a derive would write the variants' own names.
ghost use Rattle.std.specs.Prelude.{◌≡◌, ◌≤◌, length};
ghost use Rattle.codec.specs.Values.{condition_name};

use amqp::condition::AmqpError;

pub fn condition_name(condition: AmqpError) -> &'static [u8]
    ensures value { result.now ≡ condition_name condition }
    ensures len { length result.now ≤ 28 }
{
    match condition {
        AmqpError::InternalError => b"amqp:internal-error",
        AmqpError::NotFound => b"amqp:not-found",
        AmqpError::UnauthorizedAccess => b"amqp:unauthorized-access",
        AmqpError::DecodeError => b"amqp:decode-error",
        AmqpError::ResourceLimitExceeded => b"amqp:resource-limit-exceeded",
        AmqpError::NotAllowed => b"amqp:not-allowed",
        AmqpError::InvalidField => b"amqp:invalid-field",
        AmqpError::NotImplemented => b"amqp:not-implemented",
        AmqpError::ResourceLocked => b"amqp:resource-locked",
        AmqpError::PreconditionFailed => b"amqp:precondition-failed",
        AmqpError::ResourceDeleted => b"amqp:resource-deleted",
        AmqpError::IllegalState => b"amqp:illegal-state",
        AmqpError::FrameSizeTooSmall => b"amqp:frame-size-too-small",
    }
}
