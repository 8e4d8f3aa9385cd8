// A link that is lost and comes back, and everything that is to be done then.
ghost use Rattle.std.specs.Prelude.{◌≤◌};

use crate::berth::{Berth, MESSAGE};
use amqp::state::DeliveryState;
use codec::compact::Compact;
use link::attach::SenderAttachExchange;
use link::resumption::Progress;
use memory::LinkMemory;
use shipping::dock::opening::answering;
use std::alloc::{AllocError, Global};
use unsettled::peer::PeerDelivery;
use unsettled::slot::Slot;

// The most entries of a table.
const MOST: usize = 1024;

type Shown = Slot<Option<DeliveryState>>;

// The first of these deliveries, as a peer lists them that has nothing to tell of their state.
fn listed(heap: Global, shown: &[Shown]) -> Result<Vec<PeerDelivery<'_>>, AllocError> {
    let mut pairs = Vec::new(heap);
    for slot in shown {
        pairs.push(PeerDelivery {
            tag: slot.tag.as_slice(),
            state: None,
        })?;
    }
    Ok(pairs)
}

// Works off both lists: whether nothing is left in either.
fn work_off(berth: &mut Berth<'_>) -> bool {
    for _ in 0..u64::MAX {
        match berth.link.work(&mut berth.queue, &Compact, &MESSAGE) {
            Ok(Progress::Worked) => berth.read(),
            Ok(Progress::Done) => break,
            Err(_) => return false,
        }
    }
    for _ in 0..u64::MAX {
        match berth.link.resend(&mut berth.queue, &Compact, &MESSAGE) {
            Ok(Progress::Worked) => berth.read(),
            Ok(Progress::Done) => return true,
            Err(_) => return false,
        }
    }
    false
}

// The link is lost, and comes back to a peer that lists so many of its deliveries: whether all was worked off.
fn come_back(heap: Global, berth: &mut Berth<'_>, shown: &mut [Shown], known: usize) -> bool {
    let _ = berth.link.detach(false, None);
    let _ = berth.link.open(0, false);
    let count = match berth.link.get_unsettled_map(false, 1, shown) {
        Ok(Some(count)) => count,
        _ => 0,
    };
    let known = known.min(count).min(shown.len());
    let Ok(pairs) = listed(heap, &shown[..known]) else {
        return false;
    };
    let attached = berth.link.attach(&answering(pairs.as_slice()), &MESSAGE);
    attached == Ok(SenderAttachExchange::Resume) && work_off(berth)
}

fn come_back_often(
    heap: Global,
    berth: &mut Berth<'_>,
    shown: &mut [Shown],
    known: usize,
    rounds: u32,
) -> u64
    ensures { result ≤ rounds }
{
    let mut back = 0;
    for n in 0..rounds {
        if come_back(heap, berth, shown, known) {
            back += 1;
        }
    }
    back
}

// So many times, at a table of so many entries: how many times all was worked off.
#[unsafe(no_mangle)]
pub extern "C" fn dabberblue_work_comebacks(
    heap: Global,
    entries: u32,
    known: usize,
    rounds: u32,
) -> u64
    ensures { result ≤ rounds }
{
    let Ok(mut memory) = LinkMemory::with_entries(heap, MOST) else {
        return 0;
    };
    let Ok(mut shown) = vec![in heap; Slot::default(); MOST] else {
        return 0;
    };
    let Some(mut berth) = Berth::new(heap, &mut memory) else {
        return 0;
    };
    berth.fill(entries);
    let back = come_back_often(heap, &mut berth, &mut shown, known, rounds);
    let _ = berth.finish();
    back
}
