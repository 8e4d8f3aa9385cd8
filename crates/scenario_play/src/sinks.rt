// The sinks of a scenario, from the heap.
ghost use Rattle.std.specs.Prelude.{IfOk};
ghost use Rattle.scenario_play.specs.Sinks.{QueueMade, SpoolMade};

use amqp::error::MakeError;
use queue::place::Place;
use queue::queue::Queue;
use spool::spool::Spool;
use std::alloc::{AllocError, Global};

// A queue of so many places over so many bytes.
pub fn make_queue(
    heap: Global,
    places: usize,
    widest: usize,
    memory: usize,
) -> Result<Result<Queue, MakeError>, AllocError>
    ensures { IfOk result (QueueMade places widest memory) }
{
    let places = vec![in heap; Place::blank(); places]?;
    let bytes = vec![in heap; 0u8; memory]?;
    Ok(Queue::new(places, bytes, widest).map_err(|unmade| unmade.error))
}

// A spool over so many bytes.
pub fn make_spool(
    heap: Global,
    memory: usize,
    widest: usize,
) -> Result<Result<Spool, MakeError>, AllocError>
    ensures { IfOk result (SpoolMade memory widest) }
{
    let bytes = vec![in heap; 0u8; memory]?;
    Ok(Spool::new(bytes, widest).map_err(|unmade| unmade.error))
}
