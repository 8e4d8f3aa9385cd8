// A line of a scenario.
ghost use Rattle.std.specs.Prelude.{◌≡◌, [], ◌∷◌, OnErr};
ghost use Rattle.scenario_text.specs.Commands.{Commands};
ghost use Rattle.scenario_text.specs.Lists.{listed};
ghost use Rattle.scenario_text.specs.Parsing.{Parsed};
ghost use Rattle.scenario_text.specs.Words.{words, left};

use crate::actions::{
    attach, collect, detach, dispose, disposition, flow, look, open, send, show, stop,
};
use crate::command::Command;
use crate::fault::Fault;
use crate::peers::PeerList;
use crate::setup::{encoder, link, pool, queue, spool};
use crate::words::Words;

// The command of a line, and `None` where the line is blank or a comment. The list then has the pairs of an attach, and else none.
pub fn parse<'l>(line: &'l str, list: &mut PeerList) -> Result<Option<Command<'l>>, Fault>
    ensures parsed { Parsed (words line.now) (listed list.new) result }
    ensures none { OnErr result (listed list.new ≡ []) }
{
    match read_line(line, list) {
        Ok(command) => Ok(command),
        Err(fault) => {
            list.clear();
            Err(fault)
        }
    }
}

// The same, but that the list of an attach with a word too many stands.
fn read_line<'l>(line: &'l str, list: &mut PeerList) -> Result<Option<Command<'l>>, Fault>
    ensures { Parsed (words line.now) (listed list.new) result }
{
    list.clear();
    let mut words = Words::new(line);
    let Some(name) = words.next() else {
        return Ok(None);
    };
    if name.starts_with('#') {
        return Ok(None);
    }
    let command = command(name, &mut words, list)?;
    words.end()?;
    Ok(Some(command))
}

fn command<'l>(name: &str, words: &mut Words<'l>, list: &mut PeerList) -> Result<Command<'l>, Fault>
    requires { listed list.old ≡ [] }
    ensures { Commands name.now (left words.old) (left words.new) (listed list.new) result }
{
    match name {
        "link" => link(words),
        "queue" => queue(words),
        "spool" => spool(words),
        "encoder" => encoder(words),
        "pool" => pool(words, list.heap()),
        "open" => open(words),
        "attach" => attach(words, list),
        "flow" => flow(words),
        "send" => send(words),
        "disposition" => disposition(words, list.heap()),
        "dispose" => dispose(words, list.heap()),
        "work" => Ok(Command::Work),
        "resend" => Ok(Command::Resend),
        "detach" => detach(words),
        "look" => look(words),
        "collect" => collect(words),
        "take" => Ok(Command::Take),
        "empty" => Ok(Command::Empty),
        "stop" => stop(words),
        "show" => show(words),
        "state" => Ok(Command::State),
        _ => Err(Fault::UnknownCommand),
    }
}
