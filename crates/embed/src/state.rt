// A delivery state as C has it.
ghost use Rattle.std.specs.Prelude.{◌≡◌};
ghost use Rattle.embed.specs.States.{state_of, c_state};

use crate::fields::{condition_of, mark_number, mark_of};
use amqp::condition::AmqpError;
use amqp::state::{DeliveryState, Received};

#[repr(C)]
#[derive(Clone, Copy)]
pub struct CState {
    // The state's code, 0x23 to 0x27, or 0 for none. Which of the fields below count goes by it.
    pub code: u8,
    pub condition: u8,
    pub delivery_failed: u8,
    pub undeliverable_here: u8,
    pub section_number: u32,
    pub section_offset: u64,
}

// A state that is none.
const NONE: CState = CState {
    code: 0,
    condition: 0,
    delivery_failed: 0,
    undeliverable_here: 0,
    section_number: 0,
    section_offset: 0,
};

// The state, if the fields hold one or none.
pub(crate) fn state_of(state: &CState) -> Option<Option<DeliveryState>>
    ensures { result ≡ state_of state.now }
{
    let found = match state.code {
        0 => return Some(None),
        0x23 => DeliveryState::Received(Received {
            section_number: state.section_number,
            section_offset: state.section_offset,
        }),
        0x24 => DeliveryState::Accepted,
        0x25 => DeliveryState::Rejected(condition_of(state.condition)?),
        0x26 => DeliveryState::Released,
        0x27 => DeliveryState::Modified {
            delivery_failed: mark_of(state.delivery_failed)?,
            undeliverable_here: mark_of(state.undeliverable_here)?,
        },
        _ => return None,
    };
    Some(Some(found))
}

pub(crate) fn c_state(state: Option<DeliveryState>) -> CState
    ensures { result ≡ c_state state }
{
    match state {
        None => NONE,
        Some(DeliveryState::Received(place)) => CState {
            code: 0x23,
            section_number: place.section_number,
            section_offset: place.section_offset,
            ..NONE
        },
        Some(DeliveryState::Accepted) => CState { code: 0x24, ..NONE },
        Some(DeliveryState::Rejected(condition)) => CState {
            code: 0x25,
            condition: condition.map_or(0, AmqpError::number),
            ..NONE
        },
        Some(DeliveryState::Released) => CState { code: 0x26, ..NONE },
        Some(
            DeliveryState::Modified {
                delivery_failed,
                undeliverable_here,
            },
        ) => CState {
            code: 0x27,
            delivery_failed: mark_number(delivery_failed),
            undeliverable_here: mark_number(undeliverable_here),
            ..NONE
        },
    }
}
