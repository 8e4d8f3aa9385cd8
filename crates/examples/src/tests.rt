use amqp::error::SendError;
use codec::compact::Compact;
use link::flow::LinkFlow;
use memory::LinkMemory;
use queue::queue::Queue;
use sender::ticket::Settlement;
use shipping::archive::Archive;
use shipping::dock::Dock;
use shipping::dock::opening::{answering, empty_queue, settings_for};
use shipping::dock::sending::plain;
use shipping::outbox::Outbox;
use shipping::report::Shipment;
use shipping::unload::unload_records;
use sink::frame::Frame;
use sink::sink::Sink;
use spool::record::read;
use spool::spool::Spool;
use std::alloc::Global;
use std::test::Fail;

fn grant(seen: Option<u32>, credit: u32) -> LinkFlow {
    LinkFlow {
        handle: None,
        delivery_count: seen,
        link_credit: Some(credit),
        available: None,
        drain: false,
        echo: true,
    }
}

// The credit that a flow leaves.
fn credit_after(
    heap: Global,
    initial: u32,
    seen: Option<u32>,
    credit: u32,
) -> Result<Option<u32>, Fail> {
    let mut memory = LinkMemory::with_entries(heap, 1)?;
    let mut link = memory
        .link(settings_for(512), initial)
        .map_err(|_| Fail::new("no link"))?;
    let answer = link.flow(&grant(seen, credit));
    Ok(answer.and_then(|flow| flow.link_credit))
}

#[test]
fn credit_examples(rt: HostRuntime) -> Result<(), Fail> {
    let heap = rt.alloc();
    assert_eq!(rt; credit_after(heap, 20, Some(10), 10)?, Some(0));
    assert_eq!(rt; credit_after(heap, 20, Some(10), 11)?, Some(1));
    assert_eq!(rt; credit_after(heap, 4_294_967_290, None, 100)?, Some(5));
    Ok(())
}

// The frames of a message, by their number and the last payload's length, or the refusal.
fn sent(
    heap: Global,
    queue: &mut Queue,
    frame: usize,
    len: usize,
    pool: &[u8],
) -> Result<Result<(usize, usize), SendError>, Fail> {
    let mut memory = LinkMemory::with_entries(heap, 1)?;
    let mut link = memory
        .link(settings_for(frame), 0)
        .map_err(|_| Fail::new("no link"))?;
    let _opened = link.open(0, false);
    let _attached = link.attach(&answering(&[]), pool);
    let _flow = link.flow(&grant(None, 1));
    match link.send(queue, &Compact, pool, &plain(len)) {
        Ok(Settlement::Unsettled(ticket)) => {
            let _progress = link.collect(ticket);
            Ok(Ok(taken(queue, &mut [0u8; 512])))
        }
        Ok(Settlement::Settled(_)) => Err(Fail::new("settled")),
        Err(e) => Ok(Err(e)),
    }
}

// How many frames wait, and how long the last payload is.
fn taken(queue: &mut Queue, out: &mut [u8]) -> (usize, usize) {
    (1..=4)
        .map_while(|n| queue.take(out).ok().flatten().map(|place| (n, place.size)))
        .last()
        .unwrap_or_default()
}

#[test]
fn splitting_examples(rt: HostRuntime) -> Result<(), Fail> {
    let heap = rt.alloc();
    let mut queue = empty_queue(heap, 4, 512).map_err(|_| Fail::new("no queue"))?;
    let pool = vec![in heap; 7; 974]?;
    for (frame, len, expected) in [
        (512, 487, Ok((1, 487))),
        (512, 488, Ok((2, 1))),
        (512, 974, Ok((2, 487))),
        (25, 0, Ok((1, 0))),
        (25, 1, Err(14)),
        (24, 0, Err(14)),
        (24, 1, Err(14)),
    ] {
        let came = sent(heap, &mut queue, frame, len, pool.as_slice())?;
        assert_eq!(rt; came.map_err(SendError::number), expected);
    }
    Ok(())
}

// Sends messages of these lengths, one after the other.
fn send_all<S: Sink>(
    heap: Global,
    sink: &mut S,
    pool: &[u8],
    lengths: &[usize],
) -> Result<(), Fail> {
    let mut memory = LinkMemory::with_entries(heap, 8)?;
    let mut link = memory
        .link(settings_for(512), 0)
        .map_err(|_| Fail::new("no link"))?;
    let _opened = link.open(0, false);
    let _attached = link.attach(&answering(&[]), pool);
    let _flow = link.flow(&grant(None, 100));
    for len in lengths {
        match link.send(sink, &Compact, pool, &plain(*len)) {
            Ok(Settlement::Unsettled(ticket)) => {
                let _progress = link.collect(ticket);
            }
            Ok(Settlement::Settled(_)) => return Err(Fail::new("settled")),
            Err(_) => return Err(Fail::new("not sent")),
        }
    }
    Ok(())
}

fn are_same(a: &Frame<'_>, b: &Frame<'_>) -> bool {
    a.kind == b.kind && a.handle == b.handle && a.header == b.header && a.payload == b.payload
}

#[test]
fn same_frames_over_queue_and_spool(rt: HostRuntime) -> Result<(), Fail> {
    let heap = rt.alloc();
    let pool = vec![in heap; 7; 1500]?;
    let lengths = [0, 1, 487, 488, 1500];
    let mut queue = empty_queue(heap, 16, 512).map_err(|_| Fail::new("no queue"))?;
    let mut spool = Spool::new(vec![in heap; 0; 16384]?, 512).map_err(|_| Fail::new("no spool"))?;
    send_all(heap, &mut queue, pool.as_slice(), &lengths)?;
    send_all(heap, &mut spool, pool.as_slice(), &lengths)?;
    let mut bytes = vec![in heap; 0; 16384]?;
    let size = spool
        .empty(&mut bytes)
        .map_err(|_| Fail::new("not emptied"))?;
    let bytes = bytes.as_slice().get(..size).unwrap_or_default();
    let mut at = 0;
    let mut out = [0; 512];
    for _frame in 0..9 {
        let taken = queue.take(&mut out).ok().flatten();
        let place = taken.ok_or_else(|| Fail::new("no frame"))?;
        let (spooled, next) = read(bytes, at).map_err(|_| Fail::new("no record"))?;
        assert!(rt; are_same(&place.frame(&out), &spooled));
        at = next;
    }
    assert!(rt; queue.take(&mut out).ok().flatten().is_none());
    assert_eq!(rt; at, size);
    Ok(())
}

// A file shipped in frames of 128 bytes, more than the sink has room for at first: what came of it, and the dock's log.
fn ship_over<S: Outbox>(heap: Global, file: &[u8]) -> Result<(Shipment, Vec<u8>), Fail> {
    let mut memory = LinkMemory::with_entries(heap, 1)?;
    let opened: Result<Dock<'_, S>, _> = Dock::open(heap, &mut memory, 128, 1);
    let mut dock = opened.map_err(|_| Fail::new("no dock"))?;
    let shipment = dock
        .ship(&Compact, file)
        .map_err(|_| Fail::new("not shipped"))?;
    Ok((shipment, dock.take_log()))
}

#[test]
fn same_shipment_over_queue_and_spool(rt: HostRuntime) -> Result<(), Fail> {
    let heap = rt.alloc();
    let file = vec![in heap; 7; 5000]?;
    let (queued, unlogged) = ship_over::<Queue>(heap, file.as_slice())?;
    let (spooled, log) = ship_over::<Spool>(heap, file.as_slice())?;
    assert!(rt; queued == spooled);
    assert!(rt; spooled.is_accepted());
    assert!(rt; unlogged.is_empty());
    let mut archive = Archive::new(heap);
    let logged = unload_records(log.as_slice(), &mut archive).map_err(|_| Fail::new("no memory"))?;
    assert_eq!(rt; logged, spooled.frames);
    Ok(())
}
