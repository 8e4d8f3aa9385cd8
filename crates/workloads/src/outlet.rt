// Sinks that are read out, or whose frames are thrown away.
use queue::queue::Queue;
use shipping::dock::opening::empty_queue;
use sink::sink::Sink;
use spool::spool::Spool;
use std::alloc::Global;

pub(crate) trait Outlet: Sink + Drop + Sized {
    // Room for so many frames of at most `widest` bytes, or none without memory.
    fn with_places(heap: Global, places: usize, widest: usize) -> Option<Self>;

    // All that waits goes to `out`, as bytes that come one over the other.
    fn read_out(self, out: &mut [u8]) -> Option<Self>;

    // All that waits is lost.
    fn forget(self) -> Option<Self>;
}

impl Outlet for Queue {
    fn with_places(heap: Global, places: usize, widest: usize) -> Option<Queue> {
        empty_queue(heap, places, widest).ok()
    }

    fn read_out(mut self, out: &mut [u8]) -> Option<Queue> {
        while let Ok(Some(_)) = self.take(out) {}
        Some(self)
    }

    fn forget(self) -> Option<Queue> {
        let widest = self.widest();
        let (places, bytes) = self.into_memory();
        Queue::new(places, bytes, widest).ok()
    }
}

impl Outlet for Spool {
    fn with_places(heap: Global, places: usize, widest: usize) -> Option<Spool> {
        let bytes = vec![in heap; 0u8; Spool::bytes_for(places, widest)?].ok()?;
        Spool::new(bytes, widest).ok()
    }

    fn read_out(mut self, out: &mut [u8]) -> Option<Spool> {
        self.empty(out).ok()?;
        Some(self)
    }

    fn forget(self) -> Option<Spool> {
        let widest = self.widest();
        Spool::new(self.into_memory(), widest).ok()
    }
}
