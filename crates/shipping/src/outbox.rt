// Sinks that a dock reads out whole, into the archive and a log.
ghost use Rattle.std.specs.Prelude.{◌≡◌, ℕ, List, [], ◌++◌, length, IfOk, OnOk};
ghost use Rattle.sink.specs.Frames.{Frame as FrameModel, empty};
ghost use Rattle.spool.specs.Records.{records};
ghost use Rattle.shipping.specs.Archives.{took_all};
ghost use Rattle.shipping.specs.Unloading.{Emptied};

use crate::archive::Archive;
use crate::dock::opening::empty_queue;
use crate::report::OutOfMemory;
use crate::unload::{unload, unload_records};
use queue::queue::Queue;
use sink::sink::Sink;
use spool::spool::Spool;
use std::alloc::Global;

pub trait Outbox: Sink + Drop {
    // What the log keeps of frames that are read out.
    ghost logged: { List FrameModel → List ℕ };

    // An empty one with room for so many frames, each with a payload of at most `widest` bytes.
    fn with_places(heap: Global, places: usize, widest: usize) -> Result<Self, OutOfMemory>
        ensures { IfOk result (λ s. Self.Sink.model s ≡ empty places widest) };

    // All that waits goes to the archive, by way of `out`, which is to be as wide as the payloads: how many frames there were.
    fn unload(
        &mut self,
        heap: Global,
        out: &mut [u8],
        log: &mut Vec<u8>,
        archive: &mut Archive,
    ) -> Result<usize, OutOfMemory>
        ensures sink { OnOk result (Emptied (Self.Sink.model self.old) (Self.Sink.model self.new)) }
        ensures archive { OnOk result (archive.new ≡ took_all (Self.Sink.model self.old).waiting archive.old) }
        ensures log { OnOk result (log.new.items ≡ log.old.items ++ logged (Self.Sink.model self.old).waiting) }
        ensures count { IfOk result (λ n. n ≡ length (Self.Sink.model self.old).waiting) };
}

impl Outbox for Queue {
    ghost logged = { λ _. [] };

    fn with_places(heap: Global, places: usize, widest: usize) -> Result<Queue, OutOfMemory> {
        empty_queue(heap, places, widest)
    }

    fn unload(
        &mut self,
        _heap: Global,
        out: &mut [u8],
        _log: &mut Vec<u8>,
        archive: &mut Archive,
    ) -> Result<usize, OutOfMemory> {
        let before = self.vacancy();
        unload(self, out, archive)?;
        Ok(self.vacancy().saturating_sub(before))
    }
}

// The log keeps every record. All records are read out at once, and no payload by itself.
impl Outbox for Spool {
    ghost logged = { records };

    fn with_places(heap: Global, places: usize, widest: usize) -> Result<Spool, OutOfMemory> {
        let size = Spool::bytes_for(places, widest).ok_or(OutOfMemory)?;
        let bytes = vec![in heap; 0u8; size]?;
        Spool::new(bytes, widest).map_err(|_| OutOfMemory)
    }

    fn unload(
        &mut self,
        heap: Global,
        _payload: &mut [u8],
        log: &mut Vec<u8>,
        archive: &mut Archive,
    ) -> Result<usize, OutOfMemory> {
        let mut out = vec![in heap; 0u8; self.waiting_bytes()]?;
        self.empty(&mut out)?;
        log.extend_from_slice(&out)?;
        unload_records(&out, archive)
    }
}
