// A queue's memory, and what always holds of it.
ghost use Rattle.std.specs.Prelude.{◌-◌, ◌≤◌, vec_len};
ghost use Rattle.queue.specs.Rings.{InBounds, Sized};

use crate::place::Place;
use amqp::stop::SessionStopReason;

pub mod making;
pub mod putting;
pub mod reading;
mod ring;

// Places in a ring, each with `widest` bytes for its payload. `used` of them hold a frame, the oldest at `head`.
// Its memory is handed in and comes back, so the ring goes round in that memory: a `VecDeque` would allocate its own. It has no
// model, since making and giving back speak of that memory: with one no clause could name it.
#[derive(Drop)]
pub struct Queue {
    places: Vec<Place>,
    bytes: Vec<u8>,
    widest: usize,
    head: usize,
    used: usize,
    stop: Option<SessionStopReason>,
    ghost room: { InBounds (vec_len places) (vec_len bytes) widest },
    ghost ring: { (head ≤ vec_len places - 1) × (used ≤ vec_len places) },
    ghost sized: { Sized places.items (vec_len places) widest head used },
}
