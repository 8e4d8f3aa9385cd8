// Delivery states.
ghost use Rattle.std.specs.Prelude.{◌≡◌, ℕ, List, MatchOption, codes};
ghost use Rattle.amqp.specs.Texts.{flag_text, state_text};
ghost use Rattle.headers_text.specs.Shows.{or_none};
ghost use Rattle.scenario_text.specs.Reading.{Reads, Any, in_two, Lacks};
ghost use Rattle.scenario_text.specs.Values.{IsPlace, IsState, IfThere, place_text, rejected_text, modified_text};

use crate::condition::read_condition;
use crate::inside::inside;
use crate::number::{read_number, read_u32};
use crate::truth::read_truth;
use amqp::condition::AmqpError;
use amqp::state::{DeliveryState, Received};

pub fn read_state(text: &str) -> Option<DeliveryState>
    ensures { Reads state_text IsState text.now result }
{
    match text {
        "accepted" => Some(DeliveryState::Accepted),
        "released" => Some(DeliveryState::Released),
        _ => read_state_with_values(text),
    }
}

fn read_state_with_values(text: &str) -> Option<DeliveryState>
    ensures { (text.now ≡ codes "accepted" → ⊥) → (text.now ≡ codes "released" → ⊥) → Reads state_text IsState text.now result }
{
    if let Some(place) = read_received(text) {
        return Some(DeliveryState::Received(place));
    }
    if let Some(condition) = read_rejected(text) {
        return Some(DeliveryState::Rejected(condition));
    }
    let (delivery_failed, undeliverable_here) = read_modified(text)?;
    Some(DeliveryState::Modified {
        delivery_failed,
        undeliverable_here,
    })
}

fn read_received(text: &str) -> Option<Received>
    ensures { Reads place_text IsPlace text.now result }
{
    let (section, offset) = parts(inside(text, "received(")?)?;
    Some(Received {
        section_number: read_u32(section)?,
        section_offset: read_number(offset, u64::MAX)?,
    })
}

fn read_rejected(text: &str) -> Option<Option<AmqpError>>
    ensures { Reads rejected_text Any text.now result }
{
    read_condition(inside(text, "rejected(")?)
}

fn read_modified(text: &str) -> Option<(Option<bool>, Option<bool>)>
    ensures { Reads modified_text Any text.now result }
{
    let (failed, undeliverable) = parts(inside(text, "modified(")?)?;
    Some((read_flag(failed)?, read_flag(undeliverable)?))
}

// What stands before and behind the first comma.
fn parts(text: &str) -> Option<(&str, &str)>
    ensures { MatchOption result ((a b : List ℕ) → Lacks 44 a → text.now ≡ in_two a b → ⊥) (λ x. Lacks 44 x.0.now × (text.now ≡ in_two x.0.now x.1.now)) }
{
    text.split_once(',')
}

// A mark of a modified delivery.
fn read_flag(text: &str) -> Option<Option<bool>>
    ensures { Reads flag_text Any text.now result }
{
    if text == "absent" {
        return Some(None);
    }
    Some(Some(read_truth(text)?))
}

// A state, or `none` for none.
pub(crate) fn read_optional_state(text: &str) -> Option<Option<DeliveryState>>
    ensures { Reads (or_none state_text) (IfThere IsState) text.now result }
{
    if text == "none" {
        return Some(None);
    }
    Some(Some(read_state(text)?))
}
