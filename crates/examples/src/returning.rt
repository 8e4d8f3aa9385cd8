// Links that come back, tried: what the first step of the work puts, and what becomes of the delivery.
use amqp::header::Header;
use amqp::state::{DeliveryState, Received};
use amqp::tag::DeliveryTag;
use codec::compact::Compact;
use link::attach::Attach;
use link::delivery::Outcome;
use link::flow::LinkFlow;
use link::resumption::Progress;
use memory::LinkMemory;
use queue::queue::Queue;
use sender::sender_link::SenderLink;
use sender::ticket::{Settlement, Ticket};
use shipping::dock::opening::{answering, empty_queue, settings_for};
use shipping::dock::sending::plain;
use std::alloc::Global;
use std::test::Fail;
use unsettled::peer::PeerDelivery;

// A data section with one byte.
const MESSAGE: [u8; 6] = [0x00, 0x53, 0x75, 0xa0, 0x01, 0x41];

// What the first frame of a step says, and how long its payload is.
#[derive(Clone, Copy, PartialEq, Eq)]
struct Step {
    tag: Option<DeliveryTag>,
    state: Option<DeliveryState>,
    resume: bool,
    aborted: bool,
    size: usize,
}

fn received(section_number: u32, section_offset: u64) -> DeliveryState {
    DeliveryState::Received(Received {
        section_number,
        section_offset,
    })
}

fn send_message(link: &mut SenderLink<'_>, queue: &mut Queue) -> Result<Ticket, Fail> {
    match link.send(queue, &Compact, &MESSAGE, &plain(MESSAGE.len())) {
        Ok(Settlement::Unsettled(ticket)) => Ok(ticket),
        Ok(Settlement::Settled(_)) => Err(Fail::new("settled")),
        Err(_) => Err(Fail::new("not sent")),
    }
}

fn step_of(queue: &mut Queue) -> Option<Step> {
    let mut out = [0; 512];
    let place = queue.take(&mut out).ok().flatten()?;
    match place.header {
        Header::Transfer(transfer) => Some(Step {
            tag: transfer.delivery_tag,
            state: transfer.state,
            resume: transfer.resume,
            aborted: transfer.aborted,
            size: place.size,
        }),
        Header::Disposition(_) => None,
    }
}

// The message is sent, the peer may tell its state, the link is lost, and comes back to a peer with this map.
fn come_back(
    link: &mut SenderLink<'_>,
    queue: &mut Queue,
    told: Option<DeliveryState>,
    map: &[PeerDelivery<'_>],
) -> Result<Ticket, Fail> {
    let credit = LinkFlow {
        handle: None,
        delivery_count: None,
        link_credit: Some(10),
        available: None,
        drain: false,
        echo: false,
    };
    let _opened = link.open(0, false);
    let _attached = link.attach(&answering(&[]), &MESSAGE);
    let _flow = link.flow(&credit);
    let ticket = send_message(link, queue)?;
    let _sent = step_of(queue);
    let _waits = link.disposition(&DeliveryTag::from_count(0), false, told);
    let _detached = link.detach(false, None);
    let _opened = link.open(0, false);
    let attach = Attach {
        unsettled: map,
        ..answering(&[])
    };
    let _attached = link.attach(&attach, &MESSAGE);
    Ok(ticket)
}

// The steps until nothing is left, and what the ticket tells then.
fn steps(
    heap: Global,
    told: Option<DeliveryState>,
    map: &[PeerDelivery<'_>],
) -> Result<([Option<Step>; 2], Option<Outcome>), Fail> {
    let mut memory = LinkMemory::with_entries(heap, 4)?;
    let mut link = memory
        .link(settings_for(512), 0)
        .map_err(|_| Fail::new("no link"))?;
    let mut queue = empty_queue(heap, 8, 512).map_err(|_| Fail::new("no queue"))?;
    let ticket = come_back(&mut link, &mut queue, told, map)?;
    let mut done = false;
    for _item in 0..4 {
        done = matches!(
            link.work(&mut queue, &Compact, &MESSAGE),
            Ok(Progress::Done)
        );
    }
    let _resent = link.resend(&mut queue, &Compact, &MESSAGE);
    let first = step_of(&mut queue);
    let second = step_of(&mut queue);
    let progress = link.collect(ticket);
    if !done {
        return Err(Fail::new("work left"));
    }
    match progress {
        Ok(outcome) => Ok(([first, second], outcome)),
        Err(_) => Err(Fail::new("no seat")),
    }
}

fn pair(tag: &[u8], state: Option<DeliveryState>) -> PeerDelivery<'_> {
    PeerDelivery { tag, state }
}

#[test]
fn resumed_where_the_peer_stands(rt: HostRuntime) -> Result<(), Fail> {
    let tag = DeliveryTag::from_count(0);
    for (place, size, state) in [
        (received(0, 3), 3, received(0, 3)),
        (received(0, 4), 6, received(0, 0)),
        (received(1, 0), 6, received(0, 0)),
    ] {
        let map = [pair(&[0, 0, 0, 0], Some(place))];
        let (frames, outcome) = steps(rt.alloc(), None, &map)?;
        let expected = Step {
            tag: Some(tag),
            state: Some(state),
            resume: true,
            aborted: false,
            size,
        };
        assert!(rt; frames == [Some(expected), None]);
        assert!(rt; outcome.is_none());
    }
    Ok(())
}

#[test]
fn aborted_where_the_peer_has_less(rt: HostRuntime) -> Result<(), Fail> {
    let map = [pair(&[0, 0, 0, 0], Some(received(1, 4)))];
    let (frames, outcome) = steps(rt.alloc(), Some(received(1, 5)), &map)?;
    let expected = Step {
        tag: Some(DeliveryTag::from_count(0)),
        state: None,
        resume: true,
        aborted: true,
        size: 0,
    };
    assert!(rt; frames == [Some(expected), None]);
    assert!(rt; outcome == Some(Outcome::NoState));
    Ok(())
}

#[test]
fn leftovers_are_passed_over(rt: HostRuntime) -> Result<(), Fail> {
    let map = [
        pair(&[0, 0, 0, 0], None),
        pair(b"b", None),
        pair(b"c", Some(DeliveryState::Accepted)),
    ];
    let (frames, outcome) = steps(rt.alloc(), None, &map)?;
    assert!(rt; frames[0].is_some_and(|step| step.tag == Some(DeliveryTag::from_count(0))));
    assert!(rt; frames[1].is_none());
    assert!(rt; outcome.is_none());
    Ok(())
}

#[test]
fn sent_again_where_the_peer_has_nothing(rt: HostRuntime) -> Result<(), Fail> {
    let (frames, outcome) = steps(rt.alloc(), None, &[])?;
    let expected = Step {
        tag: Some(DeliveryTag::from_count(1)),
        state: None,
        resume: false,
        aborted: false,
        size: 6,
    };
    assert!(rt; frames == [Some(expected), None]);
    assert!(rt; outcome.is_none());
    Ok(())
}

#[test]
fn peers_outcome_ends_it_and_is_confirmed(rt: HostRuntime) -> Result<(), Fail> {
    let map = [pair(&[0, 0, 0, 0], Some(DeliveryState::Accepted))];
    let (frames, outcome) = steps(rt.alloc(), None, &map)?;
    let expected = Step {
        tag: Some(DeliveryTag::from_count(0)),
        state: Some(DeliveryState::Accepted),
        resume: true,
        aborted: false,
        size: 0,
    };
    assert!(rt; frames == [Some(expected), None]);
    assert!(rt; outcome == Some(Outcome::State(DeliveryState::Accepted)));
    Ok(())
}
