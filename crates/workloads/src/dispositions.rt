// Dispositions at a table of many deliveries.
ghost use Rattle.std.specs.Prelude.{◌+◌, ◌≤◌};

use crate::berth::Berth;
use amqp::state::{DeliveryState, Received};
use amqp::tag::DeliveryTag;
use memory::LinkMemory;
use std::alloc::Global;

// The most entries of a table.
const MOST: usize = 1024;

// The peer tells of each delivery in turn that it has got a part of it, and in the end that all are accepted: how many
// tickets told that.
#[unsafe(no_mangle)]
pub extern "C" fn dabberblue_work_record(heap: Global, entries: u32, rounds: u32) -> u64
    ensures { result ≤ entries }
{
    let Ok(mut memory) = LinkMemory::with_entries(heap, MOST) else {
        return 0;
    };
    let Some(mut berth) = Berth::new(heap, &mut memory) else {
        return 0;
    };
    berth.fill(entries);
    let told = Some(DeliveryState::Received(Received {
        section_number: 0,
        section_offset: 3,
    }));
    for n in 0..rounds {
        let tag = DeliveryTag::from_count(n % entries.max(1));
        let _ = berth.link.disposition(&tag, false, told);
    }
    for n in 0..entries {
        berth.accept(n);
    }
    berth.finish()
}

// The oldest delivery is accepted, its ticket collected, and another sent, so many times: how many tickets told that their
// delivery was accepted.
#[unsafe(no_mangle)]
pub extern "C" fn dabberblue_work_turns(heap: Global, entries: u32, rounds: u32) -> u64
    ensures { result ≤ entries + rounds }
{
    let Ok(mut memory) = LinkMemory::with_entries(heap, MOST) else {
        return 0;
    };
    let Some(mut berth) = Berth::new(heap, &mut memory) else {
        return 0;
    };
    berth.fill(entries);
    for n in 0..rounds {
        berth.accept(n);
        berth.collect();
        berth.send();
    }
    berth.finish()
}
