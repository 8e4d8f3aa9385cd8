// Error conditions by their numbers (Part 2, 2.8.15).
ghost use Rattle.std.specs.Prelude.{◌≡◌, MatchOption};
ghost use Rattle.amqp.specs.declared.condition.AmqpError.{AmqpError};
ghost use Rattle.amqp.specs.States.{condition_number};
ghost use Rattle.scenario_text.specs.Reading.{Reads, Any};
ghost use Rattle.scenario_text.specs.Values.{error_text, condition_text};

use crate::number::read_number;
use amqp::condition::AmqpError;

fn of_number(n: u64) -> Option<AmqpError>
    ensures { MatchOption result ((e : AmqpError) → n ≡ condition_number e → ⊥) (λ e. n ≡ condition_number e) }
{
    match n {
        1 => Some(AmqpError::InternalError),
        2 => Some(AmqpError::NotFound),
        3 => Some(AmqpError::UnauthorizedAccess),
        4 => Some(AmqpError::DecodeError),
        5 => Some(AmqpError::ResourceLimitExceeded),
        6 => Some(AmqpError::NotAllowed),
        7 => Some(AmqpError::InvalidField),
        8 => Some(AmqpError::NotImplemented),
        9 => Some(AmqpError::ResourceLocked),
        10 => Some(AmqpError::PreconditionFailed),
        11 => Some(AmqpError::ResourceDeleted),
        12 => Some(AmqpError::IllegalState),
        13 => Some(AmqpError::FrameSizeTooSmall),
        _ => None,
    }
}

pub(crate) fn read_error(text: &str) -> Option<AmqpError>
    ensures { Reads error_text Any text.now result }
{
    of_number(read_number(text, 13)?)
}

// A condition, or 0 for none.
pub fn read_condition(text: &str) -> Option<Option<AmqpError>>
    ensures { Reads condition_text Any text.now result }
{
    if text == "0" {
        return Some(None);
    }
    Some(Some(read_error(text)?))
}
