// Reading frames into the archive.
ghost use Rattle.std.specs.Prelude.{◌≡◌, length, IfOk, OnOk};
ghost use Rattle.queue.specs.Queues.{model_of};
ghost use Rattle.spool.specs.Reading.{frames_in};
ghost use Rattle.shipping.specs.Archives.{took_all};
ghost use Rattle.shipping.specs.Unloading.{emptied};

use crate::archive::Archive;
use crate::report::OutOfMemory;
use queue::queue::Queue;
use spool::record::read;

// All frames that wait, by way of `out`, which is to be as wide as the queue's payloads.
pub fn unload(queue: &mut Queue, out: &mut [u8], archive: &mut Archive) -> Result<(), OutOfMemory>
    ensures queue { OnOk result (model_of queue.new ≡ emptied (model_of queue.old)) }
    ensures archive { OnOk result (archive.new ≡ took_all (model_of queue.old).waiting archive.old) }
{
    while let Some(place) = queue.take(out)? {
        archive.receive(place.frame(out))?;
    }
    Ok(())
}

// All frames whose records these bytes are: how many there are.
pub fn unload_records(bytes: &[u8], archive: &mut Archive) -> Result<usize, OutOfMemory>
    ensures archive { OnOk result (archive.new ≡ took_all (frames_in bytes.now) archive.old) }
    ensures count { IfOk result (λ n. n ≡ length (frames_in bytes.now)) }
{
    let mut at = 0;
    let mut count = 0;
    while let Ok((frame, next)) = read(bytes, at) {
        archive.receive(frame)?;
        at = next;
        count += 1;
    }
    Ok(count)
}
