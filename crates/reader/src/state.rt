// Delivery states and errors as they are read (Part 3, 3.4; Part 2, 2.8.14).
ghost use Rattle.std.specs.Prelude.{◌≡◌, ◌≤◌};
ghost use Rattle.reader.specs.Inputs.{Reads};
ghost use Rattle.reader.specs.States.{condition_of, name_at, described_at, error_list_at, error_at, received_at, rejected_at, modified_at, plain_at, state_by, state_at};

use crate::field::Item;
use crate::input::Input;
use crate::parse::Parse;
use amqp::condition::AmqpError;
use amqp::state::{DeliveryState, Received};
use codec::error::ReadError;
use codec::name::condition_name;

const CONDITIONS: [AmqpError; 13] = [
    AmqpError::InternalError,
    AmqpError::NotFound,
    AmqpError::UnauthorizedAccess,
    AmqpError::DecodeError,
    AmqpError::ResourceLimitExceeded,
    AmqpError::NotAllowed,
    AmqpError::InvalidField,
    AmqpError::NotImplemented,
    AmqpError::ResourceLocked,
    AmqpError::PreconditionFailed,
    AmqpError::ResourceDeleted,
    AmqpError::IllegalState,
    AmqpError::FrameSizeTooSmall,
];

#[tactic(auto, unfolding(crate::specs::States::condition_of))]
fn condition_named(name: &[u8]) -> Option<AmqpError>
    ensures { result ≡ condition_of name.now }
{
    CONDITIONS
        .iter()
        .copied()
        .find(|condition| condition_name(*condition) == name)
}

// The code of a described list, which is read up to the list. It stays a number, matched by ranges (docs/DECISIONS.md, Forms).
#[tactic(auto, unfolding(crate::specs::States::described_at))]
pub(crate) fn described<P: Parse>(input: &mut Input<'_>) -> Result<u64, ReadError>
    ensures { Reads (described_at P.Parse.reading) input.old input.new result }
{
    input.byte(0x00)?;
    P::ulong(input)
}

fn name<P: Parse>(input: &mut Input<'_>) -> Result<AmqpError, ReadError>
    ensures { Reads (name_at P.Parse.reading) input.old input.new result }
{
    let start = input.at;
    let name = P::symbol(input, 28)?;
    condition_named(name).ok_or(ReadError::NotEncoded { at: start + 1 })
}

impl Item for AmqpError {
    ghost reader = { error_at };

    #[tactic(auto, unfolding(crate::specs::States::error_at))]
    fn read<P: Parse>(input: &mut Input<'_>) -> Result<AmqpError, ReadError> {
        let start = input.at;
        match described::<P>(input)? {
            0x1d => error_list::<P>(input),
            _ => Err(input.fault_from(start + 1)),
        }
    }
}

// Condition, description and info.
#[tactic(auto, unfolding(crate::specs::Fields::must_at))]
fn error_list<P: Parse>(input: &mut Input<'_>) -> Result<AmqpError, ReadError>
    ensures { Reads (error_list_at P.Parse.reading) input.old input.new result }
{
    P::list(input, 1..=3)?;
    // Counted here, since the item of a condition is the whole error and not its name.
    let left = input.left.saturating_sub(1);
    let condition = name::<P>(input)?;
    input.left = left;
    input.null::<P>()?;
    input.null::<P>()?;
    Ok(condition)
}

#[tactic(auto, unfolding(crate::specs::States::received_at))]
fn received<P: Parse>(input: &mut Input<'_>) -> Result<DeliveryState, ReadError>
    ensures { Reads (received_at P.Parse.reading) input.old input.new result }
{
    P::list(input, 2..=2)?;
    let section_number = input.must::<P, u32>()?;
    let section_offset = input.must::<P, u64>()?;
    Ok(DeliveryState::Received(Received {
        section_number,
        section_offset,
    }))
}

#[tactic(auto, unfolding(crate::specs::States::rejected_at))]
fn rejected<P: Parse>(input: &mut Input<'_>) -> Result<DeliveryState, ReadError>
    ensures { Reads (rejected_at P.Parse.reading) input.old input.new result }
{
    P::list(input, 0..=1)?;
    let error = input.may::<P, AmqpError>()?;
    Ok(DeliveryState::Rejected(error))
}

#[tactic(auto, unfolding(crate::specs::States::modified_at))]
fn modified<P: Parse>(input: &mut Input<'_>) -> Result<DeliveryState, ReadError>
    ensures { Reads (modified_at P.Parse.reading) input.old input.new result }
{
    P::list(input, 0..=3)?;
    let delivery_failed = input.may::<P, bool>()?;
    let undeliverable_here = input.may::<P, bool>()?;
    input.null::<P>()?;
    Ok(DeliveryState::Modified {
        delivery_failed,
        undeliverable_here,
    })
}

// A state with no fields.
#[tactic(auto, unfolding(crate::specs::States::plain_at))]
fn plain<P: Parse>(input: &mut Input<'_>, state: DeliveryState) -> Result<DeliveryState, ReadError>
    ensures { Reads (plain_at P.Parse.reading state) input.old input.new result }
{
    P::list(input, 0..=0)?;
    Ok(state)
}

// The state of a code from 0x23 to 0x27.
fn state_by<P: Parse>(input: &mut Input<'_>, code: u64) -> Result<DeliveryState, ReadError>
    requires { (0x23 ≤ code) × (code ≤ 0x27) }
    ensures { Reads (state_by P.Parse.reading code) input.old input.new result }
{
    match code {
        0x23 => received::<P>(input),
        0x24 => plain::<P>(input, DeliveryState::Accepted),
        0x25 => rejected::<P>(input),
        0x26 => plain::<P>(input, DeliveryState::Released),
        0x27 => modified::<P>(input),
        _ => Err(input.fault()),
    }
}

impl Item for DeliveryState {
    ghost reader = { state_at };

    #[tactic(auto, unfolding(crate::specs::States::state_at))]
    fn read<P: Parse>(input: &mut Input<'_>) -> Result<DeliveryState, ReadError> {
        let start = input.at;
        let code = described::<P>(input)?;
        match code {
            0x23..=0x27 => state_by::<P>(input, code),
            _ => Err(input.fault_from(start + 1)),
        }
    }
}
