// Reading what waits, oldest first.
ghost use Rattle.std.specs.Prelude.{◌≡◌, length};
ghost use Rattle.queue.specs.Queues.{model_of};
ghost use Rattle.queue.specs.Reading.{taken, left, read_into};

use super::Queue;
use crate::place::Place;
use amqp::error::MemoryError;

impl Queue {
    // Takes the oldest frame, if one waits: its payload goes to the front of `out`, and the place that held it is free
    // again. Where `out` is shorter than the payload, the frame stays.
    pub fn take(&mut self, out: &mut [u8]) -> Result<Option<Place>, MemoryError>
        ensures answer { result ≡ taken (model_of self.old).waiting (length out.old) }
        ensures after { model_of self.new ≡ left (model_of self.old) (length out.old) }
        ensures read { out.new ≡ read_into (model_of self.old).waiting out.old }
    {
        // No frame that borrows `out` is answered: no clause could then say what stands past its payload.
        if self.used == 0 {
            return Ok(None);
        }
        let place = self.places[self.head];
        let size = place.size;
        if out.len() < size {
            return Err(MemoryError::TooShort);
        }
        let at = self.head * self.widest;
        out[..size].copy_from_slice(&self.bytes[at..at + size]);
        self.head = self.slot_at(1);
        self.used -= 1;
        Ok(Some(place))
    }
}
