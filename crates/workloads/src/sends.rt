// Messages sent into a sink, one after the other, and each delivery accepted.
ghost use Rattle.std.specs.Prelude.{◌≤◌};

use crate::credit::credit;
use crate::outlet::Outlet;
use amqp::state::DeliveryState;
use amqp::tag::DeliveryTag;
use codec::compact::Compact;
use link::delivery::Outcome;
use memory::LinkMemory;
use queue::queue::Queue;
use sender::sender_link::SenderLink;
use sender::ticket::Settlement;
use shipping::dock::opening::{ENTRIES, answering, settings_for};
use shipping::dock::sending::plain;
use spool::spool::Spool;
use std::alloc::Global;

// A message goes out and is accepted: whether its ticket told that.
fn ship<S: Outlet>(link: &mut SenderLink<'_>, sink: &mut S, pool: &[u8], count: u32) -> bool {
    match link.send(sink, &Compact, pool, &plain(pool.len())) {
        Ok(Settlement::Unsettled(ticket)) => {
            let tag = DeliveryTag::from_count(count);
            let _ = link.disposition(&tag, true, Some(DeliveryState::Accepted));
            link.collect(ticket) == Ok(Some(Outcome::State(DeliveryState::Accepted)))
        }
        Ok(Settlement::Settled(_)) => false,
        Err(_) => false,
    }
}

fn ship_all<S: Outlet>(
    link: &mut SenderLink<'_>,
    mut sink: S,
    pool: &[u8],
    count: u32,
    is_read: bool,
    out: &mut [u8],
) -> u64
    ensures { result ≤ count }
{
    let mut shipped = 0;
    for n in 0..count {
        if ship(link, &mut sink, pool, n) {
            shipped += 1;
        }
        let rest = if is_read {
            sink.read_out(out)
        } else {
            sink.forget()
        };
        let Some(next) = rest else {
            return shipped;
        };
        sink = next;
    }
    shipped
}

fn attach(link: &mut SenderLink<'_>) {
    let _ = link.open(0, false);
    let _ = link.attach(&answering(&[]), &[]);
    let _ = link.flow(&credit(0));
}

fn run<S: Outlet>(
    heap: Global,
    pool: &[u8],
    frame: usize,
    places: usize,
    count: u32,
    is_read: bool,
    out: &mut [u8],
) -> u64
    ensures { result ≤ count }
{
    let Ok(mut memory) = LinkMemory::with_entries(heap, ENTRIES) else {
        return 0;
    };
    let Ok(mut link) = memory.link(settings_for(frame), 0) else {
        return 0;
    };
    let Some(sink) = S::with_places(heap, places, frame) else {
        return 0;
    };
    attach(&mut link);
    ship_all(&mut link, sink, pool, count, is_read, out)
}

// Sends the pool as a message so many times, in frames of this size, through a sink of so many places: how many were
// accepted. The frames are read out after each message, or lost.
#[unsafe(no_mangle)]
pub extern "C" fn dabberblue_work_queue(
    heap: Global,
    pool: &[u8],
    frame: usize,
    places: usize,
    count: u32,
    is_read: bool,
    out: &mut [u8],
) -> u64
    ensures { result ≤ count }
{
    run::<Queue>(heap, pool, frame, places, count, is_read, out)
}

// The same through a spool.
#[unsafe(no_mangle)]
pub extern "C" fn dabberblue_work_spool(
    heap: Global,
    pool: &[u8],
    frame: usize,
    places: usize,
    count: u32,
    is_read: bool,
    out: &mut [u8],
) -> u64
    ensures { result ≤ count }
{
    run::<Spool>(heap, pool, frame, places, count, is_read, out)
}
