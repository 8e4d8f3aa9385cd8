// A link, the queue of its frames and the archive that reads them one by one, over connections that break.
ghost use Rattle.std.specs.Prelude.{◌≡◌, false, None, OnOk, vec_len};
ghost use Rattle.link.specs.Calls.{Detach, step};
ghost use Rattle.queue.specs.Queues.{model_of};
ghost use Rattle.sink.specs.Frames.{empty};

use crate::breaking::cargo::Cargo;
use crate::breaking::trouble::Trouble;
use amqp::error::SendError;
use amqp::header::{FrameKind, Header, Transfer};
use amqp::tag::DeliveryTag;
use codec::compact::Compact;
use link::delivery::Sendable;
use link::flow::LinkFlow;
use link::resumption::Progress;
use memory::LinkMemory;
use queue::place::Place;
use queue::queue::Queue;
use sender::sender_link::SenderLink;
use sender::ticket::{Settlement, Ticket};
use shipping::dock::opening::{LONGEST_FRAME, answering, empty_queue, settings_for};
use shipping::dock::sending::plain;
use shipping::report::ShipError;
use std::alloc::Global;
use voyage::receiver::{Part, Receiver};
use voyage::report::{Break, Unfinished};
use voyage::returns::{Return, Returns};

// The most that a frame has besides its payload: a transfer with every field that the link sets takes 43 bytes.
const OVERHEAD: usize = 64;

#[derive(Drop)]
pub struct Crossing<'a> {
    heap: Global,
    link: SenderLink<'a>,
    queue: Queue,
    places: usize,
    // A payload on its way to the archive.
    out: Vec<u8>,
    archive: Receiver,
    // What the archive grants at a time.
    credit: u32,
    pub cargo: Cargo,
    // What came back since the last break, if there was one.
    returns: Option<Returns>,
    // The delivery that was resumed past its start.
    cut: Option<DeliveryTag>,
}

// How reading ended.
#[derive(Clone, Copy, PartialEq, Eq)]
pub enum Reach {
    // Nothing waits any more.
    Emptied,
    Broken,
}

// Room for all frames of all messages, so that they wait until the archive reads them.
fn places_for(cargo: &Cargo, frame: usize) -> usize {
    let share = frame.saturating_sub(OVERHEAD).max(1);
    (cargo.pool.len() / share).saturating_add(cargo.files.len())
}

impl<'a> Crossing<'a> {
    // Both ends attach.
    pub fn open(
        heap: Global,
        memory: &'a mut LinkMemory,
        frame: u32,
        credit: u32,
        cargo: Cargo,
    ) -> Result<Crossing<'a>, Trouble> {
        let frame = (frame as usize).min(LONGEST_FRAME);
        let widest = frame.max(1);
        let places = places_for(&cargo, frame);
        let link = memory
            .link(settings_for(frame), 0)
            .map_err(|_| ShipError::Link)?;
        let mut crossing = Crossing {
            heap,
            link,
            queue: empty_queue(heap, places, widest)?,
            places,
            out: vec![in heap; 0u8; widest]?,
            archive: Receiver::new(heap),
            credit,
            cargo,
            returns: None,
            cut: None,
        };
        crossing.attach()?;
        Ok(crossing)
    }

    // Both ends attach, the archive with what it has, and it grants credit.
    pub fn attach(&mut self) -> Result<(), Trouble> {
        self.link.open(0, false).map_err(|_| ShipError::Link)?;
        let attached = match self.archive.unsettled() {
            Some(known) => self
                .link
                .attach(&answering(&[known]), self.cargo.pool.as_slice()),
            None => self
                .link
                .attach(&answering(&[]), self.cargo.pool.as_slice()),
        };
        attached.map_err(|_| ShipError::Link)?;
        self.grant();
        Ok(())
    }

    // The archive grants credit from the count that the link tells: nothing waits that it has not read.
    fn grant(&mut self) {
        let asking = LinkFlow {
            handle: None,
            delivery_count: None,
            link_credit: None,
            available: None,
            drain: false,
            echo: true,
        };
        let told = self.link.flow(&asking);
        let _ = self.link.flow(&LinkFlow {
            delivery_count: told.and_then(|flow| flow.delivery_count),
            link_credit: Some(self.credit),
            echo: false,
            ..asking
        });
    }

    // Sends the next file, if one is left.
    fn send_next(&mut self, tickets: &mut Vec<Ticket>) -> Result<Progress, Trouble>
        ensures { self.new.archive ≡ self.old.archive }
    {
        let Some(file) = self.cargo.files.as_slice().get(tickets.len()) else {
            return Ok(Progress::Done);
        };
        let message = Sendable {
            place: file.place,
            ..plain(0)
        };
        let sent = self.link.send(
            &mut self.queue,
            &Compact,
            self.cargo.pool.as_slice(),
            &message,
        );
        match sent? {
            Settlement::Unsettled(ticket) => self.hold(tickets, ticket),
            Settlement::Settled(_) => Err(Trouble::Ship(ShipError::Link)),
        }
    }

    fn hold(&mut self, tickets: &mut Vec<Ticket>, ticket: Ticket) -> Result<Progress, Trouble>
        ensures { self.new.archive ≡ self.old.archive }
    {
        if let Err(failed) = tickets.push(ticket) {
            let _ = self.link.collect(failed.value);
            return Err(Trouble::Ship(ShipError::NoMemory));
        }
        Ok(Progress::Worked)
    }

    // As far as the credit goes, every file is sent before any frame is read.
    pub fn send_all(&mut self, tickets: &mut Vec<Ticket>) -> Result<(), Trouble> {
        for _ in 0..self.cargo.files.len() {
            match self.send_next(tickets) {
                Err(Trouble::Ship(ShipError::Refused(SendError::NoCredit))) => return Ok(()),
                sent => sent?,
            };
        }
        Ok(())
    }

    fn count(&mut self, back: Return)
        ensures { self.new.queue ≡ self.old.queue }
    {
        if let Some(returns) = &mut self.returns {
            returns.add(back);
        }
    }

    // What a first frame says of a delivery that comes back.
    fn note(&mut self, transfer: &Transfer)
        ensures { self.new.queue ≡ self.old.queue }
    {
        let Some(back) = Return::under_old_tag(transfer) else {
            return;
        };
        self.count(back);
        if matches!(back, Return::Resumed(at) if at > 0) {
            self.cut = transfer.delivery_tag;
        }
    }

    // The archive takes a frame in, whose payload lies in `out`, and answers for a delivery that it finishes.
    fn take_in(&mut self, place: &Place, tickets: &Vec<Ticket>) -> Result<(), Trouble>
        ensures { self.new.queue ≡ self.old.queue }
    {
        if let (FrameKind::First, Header::Transfer(transfer)) = (place.kind, place.header) {
            self.note(&transfer);
        }
        if let Some(part) = self.archive.receive(place.frame(self.out.as_slice()))? {
            self.answer(&part, tickets)?;
        }
        Ok(())
    }

    // The archive reads what waits, until the connection breaks.
    fn read_out(&mut self, until: Option<u64>, tickets: &Vec<Ticket>) -> Result<Reach, Trouble> {
        if until == Some(self.archive.frames()) {
            return Ok(Reach::Broken);
        }
        while let Some(place) = self.queue.take(self.out.as_mut_slice())? {
            self.take_in(&place, tickets)?;
            if until == Some(self.archive.frames()) {
                return Ok(Reach::Broken);
            }
        }
        Ok(Reach::Emptied)
    }

    // The archive answers for a delivery, settled, and the ticket that ends by it tells which file it was.
    fn answer(&mut self, part: &Part, tickets: &Vec<Ticket>) -> Result<(), Trouble>
        ensures { self.new.queue ≡ self.old.queue }
    {
        let state = self.cargo.judge(part.bytes.as_slice());
        let _ = self.link.disposition(&part.tag, true, Some(state));
        let pool = self.cargo.pool.as_slice();
        for (file, ticket) in self.cargo.files.iter_mut().zip(tickets.iter()) {
            file.learn(self.link.look(ticket)?, part, pool)?;
        }
        Ok(())
    }

    fn work(&mut self) -> Result<Progress, Trouble> {
        Ok(
            self.link
                .work(&mut self.queue, &Compact, self.cargo.pool.as_slice())?,
        )
    }

    fn resend(&mut self) -> Result<Progress, Trouble> {
        let sent = self
            .link
            .resend(&mut self.queue, &Compact, self.cargo.pool.as_slice());
        Ok(sent?)
    }

    // The same, once more where the credit was used up.
    fn resend_granted(&mut self) -> Result<Progress, Trouble> {
        match self.resend() {
            Err(Trouble::Ship(ShipError::Refused(SendError::NoCredit))) => {
                self.grant();
                self.resend()
            }
            sent => sent,
        }
    }

    fn send_granted(&mut self, tickets: &mut Vec<Ticket>) -> Result<Progress, Trouble> {
        match self.send_next(tickets) {
            Err(Trouble::Ship(ShipError::Refused(SendError::NoCredit))) => {
                self.grant();
                self.send_next(tickets)
            }
            sent => sent,
        }
    }

    // What came back is worked off first, then sent again, and then what was never sent.
    fn step(&mut self, tickets: &mut Vec<Ticket>) -> Result<Progress, Trouble> {
        if self.work()? == Progress::Worked {
            return Ok(Progress::Worked);
        }
        if self.resend_granted()? == Progress::Worked {
            self.count(Return::Resent);
            return Ok(Progress::Worked);
        }
        self.send_granted(tickets)
    }

    // Everything that is left, until the connection breaks. Each file is resumed, sent again and sent at most once each, so that
    // after three steps for each nothing is left.
    pub fn go_on(
        &mut self,
        until: Option<u64>,
        tickets: &mut Vec<Ticket>,
    ) -> Result<Reach, Trouble> {
        for _ in 0..self.cargo.files.len().saturating_mul(3) {
            if self.read_out(until, tickets)? == Reach::Broken {
                return Ok(Reach::Broken);
            }
            if self.step(tickets)? == Progress::Done {
                return Ok(Reach::Emptied);
            }
        }
        self.read_out(until, tickets)
    }

    // What waits in the queue is lost, and the link's deliveries stand in its table again.
    pub fn break_off(&mut self) -> Result<(), Trouble>
        ensures link { OnOk result (self.new.link ≡ step self.old.link (Detach false None)) }
        ensures queue { OnOk result (model_of self.new.queue ≡ empty self.old.places (vec_len self.old.out)) }
        ensures archive { self.new.archive ≡ self.old.archive }
    {
        let unfinished = self.archive.part().map(|part| part.tag);
        if unfinished.is_some() && unfinished == self.cut {
            return Err(Trouble::BrokenTwice);
        }
        self.link.detach(false, None).map_err(|_| ShipError::Link)?;
        self.queue = empty_queue(self.heap, self.places, self.out.len())?;
        self.returns = Some(Returns::default());
        Ok(())
    }

    pub fn returns(&self) -> Option<Returns>
        ensures { result ≡ self.now.returns }
    {
        self.returns
    }

    // What stands when the connection breaks.
    pub fn break_report(&self) -> Break {
        let files = self.cargo.files.as_slice();
        let unfinished = self.archive.part().map(|part| Unfinished {
            tag: part.tag,
            bytes: part.bytes.len(),
        });
        let known = files.iter().filter(|file| file.outcome.is_some()).count()
            + usize::from(unfinished.is_some());
        Break {
            frames: self.archive.frames(),
            accepted: files.iter().filter(|file| file.is_accepted()).count(),
            unknown: files.len().saturating_sub(known),
            unfinished,
        }
    }

    // Every ticket is collected.
    pub fn collect(&mut self, mut tickets: Vec<Ticket>) {
        while let Some(ticket) = tickets.pop() {
            let _ = self.link.collect(ticket);
        }
        tickets.destroy_empty();
    }
}
