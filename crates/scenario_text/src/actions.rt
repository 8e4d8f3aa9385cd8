// The lines that are calls of a link.
ghost use Rattle.std.specs.Prelude.{[], codes};
ghost use Rattle.scenario_text.specs.Commands.{Commands};
ghost use Rattle.scenario_text.specs.Lists.{listed};
ghost use Rattle.scenario_text.specs.Words.{left};

use crate::command::Command;
use crate::fault::Fault;
use crate::peers::PeerList;
use crate::values::{attach_of, detach_of, disposal, disposition_of, link_flow, sendable, show_of};
use crate::words::Words;
use std::alloc::Global;

pub(crate) fn open<'l>(words: &mut Words<'l>) -> Result<Command<'l>, Fault>
    ensures { Commands (codes "open") (left words.old) (left words.new) [] result }
{
    Ok(Command::Open {
        handle: words.u32("handle")?,
        incomplete_unsettled: words.truth("incomplete")?,
    })
}

pub(crate) fn attach<'l>(words: &mut Words<'l>, list: &mut PeerList) -> Result<Command<'l>, Fault>
    ensures { Commands (codes "attach") (left words.old) (left words.new) (listed list.new) result }
{
    Ok(Command::Attach(attach_of(words, list)?))
}

pub(crate) fn flow<'l>(words: &mut Words<'l>) -> Result<Command<'l>, Fault>
    ensures { Commands (codes "flow") (left words.old) (left words.new) [] result }
{
    Ok(Command::Flow(link_flow(words)?))
}

pub(crate) fn send<'l>(words: &mut Words<'l>) -> Result<Command<'l>, Fault>
    ensures { Commands (codes "send") (left words.old) (left words.new) [] result }
{
    Ok(Command::Send(sendable(words)?))
}

pub(crate) fn disposition<'l>(words: &mut Words<'l>, heap: Global) -> Result<Command<'l>, Fault>
    ensures { Commands (codes "disposition") (left words.old) (left words.new) [] result }
{
    let (tag, settled, state) = disposition_of(words, heap)?;
    Ok(Command::Disposition {
        tag,
        settled,
        state,
    })
}

pub(crate) fn dispose<'l>(words: &mut Words<'l>, heap: Global) -> Result<Command<'l>, Fault>
    ensures { Commands (codes "dispose") (left words.old) (left words.new) [] result }
{
    Ok(Command::Dispose(disposal(words, heap)?))
}

pub(crate) fn detach<'l>(words: &mut Words<'l>) -> Result<Command<'l>, Fault>
    ensures { Commands (codes "detach") (left words.old) (left words.new) [] result }
{
    let (closed, error) = detach_of(words)?;
    Ok(Command::Detach { closed, error })
}

pub(crate) fn stop<'l>(words: &mut Words<'l>) -> Result<Command<'l>, Fault>
    ensures { Commands (codes "stop") (left words.old) (left words.new) [] result }
{
    Ok(Command::Stop(words.reason("a reason")?))
}

pub(crate) fn show<'l>(words: &mut Words<'l>) -> Result<Command<'l>, Fault>
    ensures { Commands (codes "show") (left words.old) (left words.new) [] result }
{
    let (is_reattaching, partial_unsettled, room) = show_of(words)?;
    Ok(Command::Show {
        is_reattaching,
        partial_unsettled,
        room,
    })
}

pub(crate) fn look<'l>(words: &mut Words<'l>) -> Result<Command<'l>, Fault>
    ensures { Commands (codes "look") (left words.old) (left words.new) [] result }
{
    Ok(Command::Look(words.ticket("a ticket")?))
}

pub(crate) fn collect<'l>(words: &mut Words<'l>) -> Result<Command<'l>, Fault>
    ensures { Commands (codes "collect") (left words.old) (left words.new) [] result }
{
    Ok(Command::Collect(words.ticket("a ticket")?))
}
