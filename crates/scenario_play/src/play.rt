// Playing a scenario, line by line.
ghost use Rattle.std.specs.Prelude.{◌≡◌, ◌&&◌, true, false, length, is_some, Ok, Some, vec_items, if◌then◌else◌, OnOk, IfOk, IfErr, IfSome};
ghost use Rattle.std.specs.Io.KnownBytes.{Appends};
ghost use Rattle.memory.specs.Sizes.{rooms_in, seats_in};
ghost use Rattle.sender.specs.Views.{rooms_of};
ghost use Rattle.scenario_play.specs.Answers.{unmade};
ghost use Rattle.scenario_play.specs.Comebacks.{Holding};
ghost use Rattle.scenario_play.specs.Courses.{Plays, GoesOn, Ends, PlaysSecond, PlaysIn, PlaysAll};
ghost use Rattle.scenario_play.specs.Inputs.{told_lines, Advances};
ghost use Rattle.scenario_play.specs.Keeping.{all_kept};
ghost use Rattle.scenario_play.specs.Playing.{answer_line, PlaysLine};

use crate::answer::{Answer, Refusal};
use crate::files::Files;
use crate::lines::Lines;
use crate::outlet::Outlet;
use crate::player::Player;
use crate::player::performing::word;
use crate::sinks::{make_queue, make_spool};
use crate::trouble::{Failure, Trouble};
use amqp::error::MakeError;
use memory::LinkMemory;
use scenario_text::command::{Command, LinkSizes};
use scenario_text::parse::parse;
use scenario_text::peers::PeerList;
use sender::sender_link::SenderLink;
use std::alloc::{AllocError, Global};
use std::io::{BufRead, Write};

// A scenario while it is played, and where its link is to break.
#[derive(Drop)]
pub(crate) struct Course<R: Drop> {
    heap: Global,
    lines: Lines<R>,
    // The peer's map of an attach's line.
    list: PeerList,
    break_after: Option<u64>,
    is_kept: bool,
}

// Says what a command answered.
fn tell<W: Write>(word: &str, answer: &Answer, out: &mut W) -> Result<(), Trouble>
    ensures { OnOk result (Appends (W.contents out.old) (W.contents out.new) (answer_line word.now answer.now)) }
{
    writeln!(out, "{word}: {answer}")?;
    Ok(())
}

// Carries out a line's command, and says what it answers.
fn play_line<S: Outlet, F: Files, W: Write>(
    line: &str,
    player: &mut Player<'_, S>,
    list: &mut PeerList,
    files: &F,
    out: &mut W,
) -> Result<(), Trouble>
    ensures { OnOk result (PlaysLine S.Outlet.framewise (F.holds files.now) line.now player.old player.new (W.contents out.old) (W.contents out.new)) }
{
    let Some(command) = parse(line, list)? else {
        return Ok(());
    };
    let answer = player.perform(&command, list, files)?;
    tell(word(&command), &answer, out)
}

fn memory_for(heap: Global, sizes: &LinkSizes) -> Result<LinkMemory, AllocError>
    ensures { IfOk result (λ m. (rooms_in m ≡ rooms_of sizes.now.table sizes.now.resume sizes.now.resend) × (seats_in m ≡ sizes.now.seats)) }
{
    LinkMemory::with_rooms(heap, sizes.table, sizes.resume, sizes.resend, sizes.seats)
}

fn refused(e: MakeError) -> Answer
    ensures { result ≡ unmade e }
{
    Answer::Refused(Refusal::Number(e.number()))
}

// Says that the link or its sink is refused: no other line is played.
fn tell_refused<W: Write>(word: &str, e: MakeError, out: &mut W) -> Result<u64, Trouble>
    ensures { IfOk result (λ steps. Ends word.now e steps (W.contents out.old) (W.contents out.new)) }
{
    tell(word, &refused(e), out)?;
    Ok(0)
}

impl<R: BufRead + Drop> Course<R> {
    pub fn new(heap: Global, input: R, break_after: Option<u64>) -> Course<R>
        ensures kept { result.is_kept ≡ true }
        ensures break_after { result.break_after ≡ break_after }
        ensures input { result.lines.input.reader ≡ input }
    {
        Course {
            heap,
            lines: Lines::new(heap, input),
            list: PeerList::new(heap),
            break_after,
            is_kept: true,
        }
    }

    // All lines, and how many there were after the two first: none where one of these is refused.
    pub fn run<F: Files, W: Write>(&mut self, files: &F, out: &mut W) -> Result<u64, Failure>
        ensures played { self.old.break_after ≡ None → IfOk result (λ steps. IfSome (R.remaining self.old.lines.input.reader) (λ xs. PlaysIn (F.holds files.now) (told_lines xs) steps (W.contents out.old) (W.contents out.new))) }
        ensures line { IfErr result (λ failure. failure.line ≡ self.new.lines.number) }
    {
        match self.make_link(files, out) {
            Ok(steps) => Ok(steps),
            Err(trouble) => Err(Failure {
                line: self.lines.number(),
                trouble,
            }),
        }
    }

    // The first line makes the link.
    fn make_link<F: Files, W: Write>(&mut self, files: &F, out: &mut W) -> Result<u64, Trouble>
        ensures { self.old.break_after ≡ None → IfOk result (λ steps. IfSome (R.remaining self.old.lines.input.reader) (λ xs. PlaysIn (F.holds files.now) (told_lines xs) steps (W.contents out.old) (W.contents out.new))) }
    {
        if !self.lines.advance()? {
            return Err(Trouble::NoLink);
        }
        let Some(Command::Link(sizes)) = parse(self.lines.text()?, &mut self.list)? else {
            return Err(Trouble::NoLink);
        };
        let mut memory = memory_for(self.heap, &sizes)?;
        match memory.link(sizes.settings, sizes.initial_delivery_count) {
            Ok(link) => {
                tell("link", &Answer::Made, out)?;
                self.make_sink(link, files, out)
            }
            Err(e) => tell_refused("link", e, out),
        }
    }

    // The second line makes its sink.
    fn make_sink<F: Files, W: Write>(
        &mut self,
        link: SenderLink<'_>,
        files: &F,
        out: &mut W,
    ) -> Result<u64, Trouble>
        ensures { self.old.break_after ≡ None → IfOk result (λ steps. IfSome (R.remaining self.old.lines.input.reader) (λ xs. PlaysSecond (F.holds files.now) link.entry (told_lines xs) steps (W.contents out.old) (W.contents out.new))) }
    {
        if !self.lines.advance()? {
            return Err(Trouble::NoSink);
        }
        match parse(self.lines.text()?, &mut self.list)? {
            Some(
                Command::Queue {
                    places,
                    widest,
                    memory,
                },
            ) => match make_queue(self.heap, places, widest, memory)? {
                Ok(queue) => self.go_on_with("queue", link, queue, files, out),
                Err(e) => tell_refused("queue", e, out),
            },
            Some(Command::Spool { memory, widest }) => {
                match make_spool(self.heap, memory, widest)? {
                    Ok(spool) => self.go_on_with("spool", link, spool, files, out),
                    Err(e) => tell_refused("spool", e, out),
                }
            }
            _ => Err(Trouble::NoSink),
        }
    }

    // Whatever comes of the lines, the tickets that are held at the end are collected.
    fn go_on_with<S: Outlet, F: Files, W: Write>(
        &mut self,
        word: &str,
        link: SenderLink<'_>,
        sink: S,
        files: &F,
        out: &mut W,
    ) -> Result<u64, Trouble>
        ensures { self.old.break_after ≡ None → IfOk result (λ steps. IfSome (R.remaining self.old.lines.input.reader) (λ xs. GoesOn S.Outlet.framewise (F.holds files.now) word.now link.entry (S.Sink.model sink) (told_lines xs) steps (W.contents out.old) (W.contents out.new))) }
    {
        tell(word, &Answer::Made, out)?;
        let mut player = Player::new(self.heap, link, sink)?;
        let played = self.go_on(&mut player, files, out);
        self.check(&player);
        let _link = player.finish();
        played
    }

    // The other lines.
    fn go_on<S: Outlet, F: Files, W: Write>(
        &mut self,
        player: &mut Player<'_, S>,
        files: &F,
        out: &mut W,
    ) -> Result<u64, Trouble>
        ensures played { self.old.break_after ≡ None → OnOk result (IfSome (R.remaining self.old.lines.input.reader) (λ xs. Plays S.Outlet.framewise (F.holds files.now) (told_lines xs) player.old player.new (W.contents out.old) (W.contents out.new))) }
        ensures counted { IfOk result (λ steps. IfSome (R.remaining self.old.lines.input.reader) (λ xs. steps ≡ length (told_lines xs))) }
    {
        for steps in 0..u64::MAX {
            if !self.step(player, files, out)? {
                return Ok(steps);
            }
            self.break_here(steps + 1, player);
        }
        Err(Trouble::TooLong)
    }

    // The next line, if there is one: it stands in the memory then.
    fn step<S: Outlet, F: Files, W: Write>(
        &mut self,
        player: &mut Player<'_, S>,
        files: &F,
        out: &mut W,
    ) -> Result<bool, Trouble>
        ensures played { result ≡ Ok true → PlaysLine S.Outlet.framewise (F.holds files.now) (vec_items self.new.lines.line) player.old player.new (W.contents out.old) (W.contents out.new) }
        ensures next { IfOk result (λ more. Advances more (vec_items self.new.lines.line) (R.remaining self.old.lines.input.reader) (R.remaining self.new.lines.input.reader)) }
        ensures over { result ≡ Ok false → (player.new ≡ player.old) × (out.new ≡ out.old) }
        ensures break_after { self.new.break_after ≡ self.old.break_after }
    {
        if !self.lines.advance()? {
            return Ok(false);
        }
        let line = self.lines.text()?;
        play_line(line, player, &mut self.list, files, out)?;
        Ok(true)
    }

    // The link breaks after the step that was named.
    fn break_here<S: Outlet>(&mut self, steps: u64, player: &mut Player<'_, S>)
        ensures holding { Holding player.old player.new }
        ensures elsewhere { (self.old.break_after ≡ Some steps → ⊥) → player.new ≡ player.old }
        ensures rest { (self.new.lines ≡ self.old.lines) × (self.new.break_after ≡ self.old.break_after) }
    {
        if self.break_after == Some(steps) {
            player.break_off();
            self.check(player);
        }
    }

    // Where the link is to break, each ticket has to be told or kept.
    fn check<S: Outlet>(&mut self, player: &Player<'_, S>)
        ensures kept { self.new.is_kept ≡ (if is_some self.old.break_after then self.old.is_kept && all_kept player.now else self.old.is_kept) }
        ensures rest { (self.new.lines ≡ self.old.lines) × (self.new.break_after ≡ self.old.break_after) }
    {
        if self.break_after.is_some() {
            self.is_kept &= player.keeps_every_ticket();
        }
    }

    // No ticket was lost, wherever it was looked at: after the break, and at the end.
    pub fn is_kept(&self) -> bool
        ensures { result ≡ self.now.is_kept }
    {
        self.is_kept
    }
}

// Plays a scenario: a line for each of its lines goes to `out`.
pub fn play<R: BufRead + Drop, F: Files, W: Write>(
    heap: Global,
    input: R,
    files: &F,
    out: &mut W,
) -> Result<(), Failure>
    ensures { OnOk result (IfSome (R.remaining input) (λ xs. PlaysAll (F.holds files.now) (told_lines xs) (W.contents out.old) (W.contents out.new))) }
{
    Course::new(heap, input, None).run(files, out)?;
    Ok(())
}
