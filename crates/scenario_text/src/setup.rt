// The lines that make a link and its sink, and say what it works on.
ghost use Rattle.std.specs.Prelude.{[], ◌∷◌, codes};
ghost use Rattle.scenario_text.specs.Commands.{Commands, IsPool, pool_words};
ghost use Rattle.scenario_text.specs.Words.{left, keyed, TakesOrNoMemory};

use crate::command::{Command, EncoderForm, PoolSource};
use crate::fault::Fault;
use crate::number::read_number;
use crate::values::{MAX_PLACES, link_sizes};
use crate::words::{Words, value_of};
use std::alloc::Global;

const MAX_POOL: usize = 70_000_000;
// The most memory of a queue or a spool.
const MAX_MEMORY: usize = 1_073_741_824;

pub(crate) fn link<'l>(words: &mut Words<'l>) -> Result<Command<'l>, Fault>
    ensures { Commands (codes "link") (left words.old) (left words.new) [] result }
{
    Ok(Command::Link(link_sizes(words)?))
}

pub(crate) fn queue<'l>(words: &mut Words<'l>) -> Result<Command<'l>, Fault>
    ensures { Commands (codes "queue") (left words.old) (left words.new) [] result }
{
    Ok(Command::Queue {
        places: words.size("places", MAX_PLACES)?,
        widest: words.size("widest", usize::MAX)?,
        memory: words.size("memory", MAX_MEMORY)?,
    })
}

pub(crate) fn spool<'l>(words: &mut Words<'l>) -> Result<Command<'l>, Fault>
    ensures { Commands (codes "spool") (left words.old) (left words.new) [] result }
{
    Ok(Command::Spool {
        memory: words.size("memory", MAX_MEMORY)?,
        widest: words.size("widest", usize::MAX)?,
    })
}

pub(crate) fn encoder<'l>(words: &mut Words<'l>) -> Result<Command<'l>, Fault>
    ensures { Commands (codes "encoder") (left words.old) (left words.new) [] result }
{
    match words.word("encoder")? {
        "compact" => Ok(Command::Encoder(EncoderForm::Compact)),
        "wide" => Ok(Command::Encoder(EncoderForm::Wide)),
        _ => Err(Fault::UnknownWord("encoder")),
    }
}

pub(crate) fn pool<'l>(words: &mut Words<'l>, heap: Global) -> Result<Command<'l>, Fault>
    ensures { Commands (codes "pool") (left words.old) (left words.new) [] result }
{
    Ok(Command::Pool(source(words, heap)?))
}

#[tactic(auto, unfolding(crate::specs::Commands::pool_words))]
fn source<'l>(words: &mut Words<'l>, heap: Global) -> Result<PoolSource<'l>, Fault>
    ensures { TakesOrNoMemory pool_words IsPool (left words.old) (left words.new) result }
{
    let word = words.word("pool")?;
    if let Some(path) = value_of(word, "file") {
        return Ok(PoolSource::File(path));
    }
    if let Some(count) = value_of(word, "repeat") {
        return repeat(count, words, heap);
    }
    Ok(PoolSource::Digits(word))
}

#[tactic(auto, unfolding(crate::specs::Commands::pool_words))]
fn repeat<'l>(count: &str, words: &mut Words<'l>, heap: Global) -> Result<PoolSource<'l>, Fault>
    ensures { TakesOrNoMemory pool_words IsPool (keyed (codes "repeat") count.now ∷ left words.old) (left words.new) result }
{
    let count = read_number(count, MAX_POOL as u64).ok_or(Fault::NotInRange("repeat"))?;
    Ok(PoolSource::Repeat {
        count: count as usize,
        byte: words.byte("byte", heap)?,
    })
}
