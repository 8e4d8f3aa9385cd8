// Values of fields as C has them.
ghost use Rattle.std.specs.Prelude.{◌≡◌};
ghost use Rattle.embed.specs.Fields.{mark_of, mark_number, truth_number, condition_of};

use amqp::condition::AmqpError;

// A truth value that may be absent: 0 absent, 1 no, 2 yes.
pub(crate) fn mark_of(mark: u8) -> Option<Option<bool>>
    ensures { result ≡ mark_of mark }
{
    match mark {
        0 => Some(None),
        1 => Some(Some(false)),
        2 => Some(Some(true)),
        _ => None,
    }
}

pub(crate) fn mark_number(mark: Option<bool>) -> u8
    ensures { result ≡ mark_number mark }
{
    mark.map_or(0, |yes| if yes { 2 } else { 1 })
}

// A condition by its number, or none by 0.
pub(crate) fn condition_of(number: u8) -> Option<Option<AmqpError>>
    ensures { result ≡ condition_of number }
{
    let condition = match number {
        0 => return Some(None),
        1 => AmqpError::InternalError,
        2 => AmqpError::NotFound,
        3 => AmqpError::UnauthorizedAccess,
        4 => AmqpError::DecodeError,
        5 => AmqpError::ResourceLimitExceeded,
        6 => AmqpError::NotAllowed,
        7 => AmqpError::InvalidField,
        8 => AmqpError::NotImplemented,
        9 => AmqpError::ResourceLocked,
        10 => AmqpError::PreconditionFailed,
        11 => AmqpError::ResourceDeleted,
        12 => AmqpError::IllegalState,
        13 => AmqpError::FrameSizeTooSmall,
        _ => return None,
    };
    Some(Some(condition))
}
