// Making a spool of memory, and having the memory back.
ghost use Rattle.std.specs.Prelude.{◌≡◌, ◌+◌, ◌*◌, ◌^◌, ◌<◌, ◌≤◌, ◌⊎◌, ◌++◌, length, drop, vec_items, MatchOption, IfSome};
ghost use Rattle.spool.specs.Records.{records};
ghost use Rattle.spool.specs.Spools.{model_of, room_for, Made};

use super::Spool;
use crate::layout::MOST;
use crate::memory::Memory;
use amqp::error::MakeError;

// What a payload's length may be at most.
const WIDEST: usize = 65535;

// Why no spool was made, and the memory that was handed in.
#[derive(Drop)]
pub struct Unmade {
    pub error: MakeError,
    pub bytes: Vec<u8>,
}

impl Spool {
    // An empty spool over this memory.
    pub fn new(bytes: Vec<u8>, widest: usize) -> Result<Spool, Unmade>
        ensures { Made bytes widest result }
    {
        if widest > WIDEST {
            return Err(Unmade {
                error: MakeError::Sizes,
                bytes,
            });
        }
        Ok(Spool {
            memory: Memory::new(bytes),
            widest,
            stop: None,
        })
    }

    // How many bytes have room for so many frames, each with a payload of at most `widest` bytes: nothing where no spool is so large.
    pub fn bytes_for(places: usize, widest: usize) -> Option<usize>
        ensures size { MatchOption result ((65535 < widest) ⊎ (2 ^ 64 ≤ places * (267 + widest))) (λ n. n ≡ places * (267 + widest)) }
        ensures room { IfSome result (λ n. room_for n widest ≡ places) }
    {
        if WIDEST < widest {
            return None;
        }
        places.checked_mul(MOST + widest)
    }

    // The memory, with the records of what still waited at its front.
    pub fn into_memory(self) -> Vec<u8>
        ensures memory { result ≡ self.memory.bytes }
        ensures records { vec_items result ≡ records (model_of self).waiting ++ drop (length (records (model_of self).waiting)) (vec_items result) }
    {
        let Spool { memory, .. } = self;
        memory.into_bytes()
    }
}
