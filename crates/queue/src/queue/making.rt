// Making a queue of memory, and having the memory back.
ghost use Rattle.std.specs.Prelude.{◌≡◌, ◌+◌, ◌*◌, length, vec_len, nat_le};
ghost use Rattle.queue.specs.Queues.{model_of, Made};
ghost use Rattle.queue.specs.Rings.{InBounds};

use super::Queue;
use crate::place::Place;
use amqp::error::MakeError;

// What a payload's length may be at most.
const WIDEST: usize = 65535;

// Why no queue was made, and the memory that was handed in.
#[derive(Drop)]
pub struct Unmade {
    pub error: MakeError,
    pub places: Vec<Place>,
    pub bytes: Vec<u8>,
}

// Whether there are `widest` bytes for each place.
fn suffices(places: usize, bytes: usize, widest: usize) -> bool
    ensures { result ≡ nat_le (places * widest) bytes }
{
    places
        .checked_mul(widest)
        .is_some_and(|needed| needed <= bytes)
}

impl Queue {
    // An empty queue over this memory.
    pub fn new(places: Vec<Place>, bytes: Vec<u8>, widest: usize) -> Result<Queue, Unmade>
        ensures { Made places bytes widest result }
    {
        if widest > WIDEST || !suffices(places.len(), bytes.len(), widest) {
            return Err(Unmade {
                error: MakeError::Sizes,
                places,
                bytes,
            });
        }
        Ok(Queue {
            places,
            bytes,
            widest,
            head: 0,
            used: 0,
            stop: None,
        })
    }

    // The memory, which serves for a queue as large again. What still waited is lost.
    pub fn into_memory(self) -> (Vec<Place>, Vec<u8>)
        ensures memory { result ≡ (self.places, self.bytes) }
        ensures places { vec_len result.0 ≡ length (model_of self).waiting + (model_of self).vacancy }
        ensures serves { InBounds (vec_len result.0) (vec_len result.1) (model_of self).widest }
    {
        let Queue { places, bytes, .. } = self;
        (places, bytes)
    }
}
