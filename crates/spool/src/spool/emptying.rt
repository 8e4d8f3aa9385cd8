// Reading all that waits at once.
ghost use Rattle.std.specs.Prelude.{◌≡◌, length, take, IfOk};
ghost use Rattle.codec.specs.Written.{written, after_write};
ghost use Rattle.spool.specs.Records.{records};
ghost use Rattle.spool.specs.Reading.{frames_in};
ghost use Rattle.spool.specs.Spools.{model_of, size_of, left};

use super::Spool;
use amqp::error::MemoryError;

impl Spool {
    // How many bytes the records of all frames that wait have.
    pub fn waiting_bytes(&self) -> usize
        ensures { result ≡ length (records (model_of self.now).waiting) }
    {
        self.memory.used()
    }

    // The records of all frames that wait go to the front of `out`, and how many bytes they are is the answer: nothing waits then, and
    // all memory is free again. Where `out` is shorter, all stays.
    pub fn empty(&mut self, out: &mut [u8]) -> Result<usize, MemoryError>
        ensures answer { result ≡ written (records (model_of self.old).waiting) out.old }
        ensures after { model_of self.new ≡ left (size_of self.old) (model_of self.old) (length out.old) }
        ensures read { out.new ≡ after_write (records (model_of self.old).waiting) out.old }
        ensures size { size_of self.new ≡ size_of self.old }

        // What was read reads back to the frames that waited.
        ensures back { IfOk result (λ n. frames_in (take n out.new) ≡ (model_of self.old).waiting) }
    {
        let size = self.memory.read(out)?;
        self.memory.clear();
        Ok(size)
    }
}
