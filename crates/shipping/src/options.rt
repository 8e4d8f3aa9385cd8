// The words of the command line.
ghost use Rattle.std.specs.Prelude.{◌≡◌, ◌⊎◌, [], map, is_some, Some, None, string_bytes, MatchResult, ◌≢◌};
ghost use Rattle.std.specs.Option.{option_map};
ghost use Rattle.shipping.specs.declared.options.UsageError.TheVariants.{NoMemory};
ghost use Rattle.shipping.specs.Words.{Wanted, wanted, spool_of, parcel_text, key_text, ReadsKey, usage_text, SoFar, unread, number_of, reached, early, numbered, awaiting, NamesFile, Takes, TakesAll, Stops, Meant};

use crate::number::read_u32;
use crate::shelf::Shelf;
use std::alloc::{AllocError, AllocFailed, Global};
use std::fmt;
use std::marker::Model;
use std::str::FromStr;

// What a frame and the credit are where nothing is said.
const FRAME: u32 = 512;

const CREDIT: u32 = 100;

#[derive(Clone, Copy, Debug, PartialEq, Eq)]
pub enum Key {
    Frame,
    Credit,
    // The connection breaks after so many frames.
    Break,
}

// The word is no key.
#[derive(Clone, Copy, Debug, PartialEq, Eq)]
pub struct UnknownKey;

// A file, and the shelf that it is for.
#[derive(Clone, Copy)]
pub struct Parcel<'a> {
    pub shelf: Shelf,
    pub path: &'a str,
}

#[derive(Drop)]
pub struct Options<'a> {
    pub frame: u32,
    pub credit: u32,
    // After how many frames the connection breaks, each time.
    pub breaks: Vec<u32>,
    pub parcels: Vec<Parcel<'a>>,
}

#[derive(Clone, Copy, Debug, PartialEq, Eq)]
pub enum UsageError<'a> {
    NoFiles,
    UnknownOption(&'a str),
    Twice(Key),
    NoNumber(Key),
    BadNumber(Key, &'a str),
    // A break that is not after the one before it.
    NotAfter(&'a str),
    NoShelf(&'a str),
    UnknownShelf(&'a str),
    NoMemory,
}

impl<T: Drop> From<AllocFailed<T>> for UsageError<'_> {
    ghost from_gives = { λ _ r. r ≡ NoMemory };

    fn from(_e: AllocFailed<T>) -> Self {
        UsageError::NoMemory
    }
}

impl fmt::Display for Key {
    ghost output = { λ k. Some (key_text k) };

    fn fmt<W: fmt::Write>(&self, f: &mut fmt::Formatter<W>) -> fmt::Result {
        match *self {
            Key::Frame => f.write_str("--frame"),
            Key::Credit => f.write_str("--credit"),
            Key::Break => f.write_str("--break"),
        }
    }
}

// The key that is printed so. No other word is a key.
impl FromStr for Key {
    type Err = UnknownKey;

    ghost from_str_gives = { ReadsKey };

    fn from_str(word: &str) -> Result<Key, UnknownKey> {
        match word {
            "--frame" => Ok(Key::Frame),
            "--credit" => Ok(Key::Credit),
            "--break" => Ok(Key::Break),
            _ => Err(UnknownKey),
        }
    }
}

impl fmt::Display for UsageError<'_> {
    ghost output = { λ e. Some (usage_text e) };

    fn fmt<W: fmt::Write>(&self, f: &mut fmt::Formatter<W>) -> fmt::Result {
        match *self {
            UsageError::NoFiles => f.write_str("no files are named"),
            UsageError::UnknownOption(word) => write!(f, "{word} is no option"),
            UsageError::Twice(key) => write!(f, "{key} is given twice"),
            UsageError::NoNumber(key) => write!(f, "{key} has no number after it"),
            UsageError::BadNumber(key, word) => {
                write!(f, "{key} {word}: no decimal number up to 4294967295")
            }
            UsageError::NotAfter(word) => write!(
                f,
                "--break {word} is not after the break before it"
            ),
            UsageError::NoShelf(word) => write!(f, "{word} is not SHELF=FILE"),
            UsageError::UnknownShelf(name) => write!(f, "{name} is no shelf"),
            UsageError::NoMemory => f.write_str("not enough memory"),
        }
    }
}

// The words read so far.
#[derive(Drop)]
struct Reading<'a> {
    frame: Option<u32>,
    credit: Option<u32>,
    breaks: Vec<u32>,
    // An option whose number comes next.
    awaits: Option<Key>,
    parcels: Vec<Parcel<'a>>,
}

impl<'a> Model for Reading<'a> {
    ghost Value = { SoFar };

    ghost view = { λ r. record { frame = r.frame; credit = r.credit; breaks = r.breaks.items; awaits = r.awaits; parcels = map wanted r.parcels.items } };
}

// Some break comes no earlier than after so many frames.
fn has_reached(breaks: &[u32], n: u32) -> bool
    ensures { result ≡ reached n breaks.now }
{
    breaks.iter().any(|b| n <= *b)
}

fn read_parcel(word: &str) -> Result<Parcel<'_>, UsageError<'_>>
    ensures { MatchResult result (λ p. word.now ≡ parcel_text (wanted p)) (λ e. ((p : Wanted) → word.now ≢ parcel_text p)) }
{
    let (name, path) = word.split_once('=').ok_or(UsageError::NoShelf(word))?;
    let shelf = name.parse().map_err(|_| UsageError::UnknownShelf(name))?;
    Ok(Parcel { shelf, path })
}

impl<'a> Reading<'a> {
    fn is_given(&self, key: Key) -> bool
        ensures { result ≡ is_some (number_of key self.now) }
    {
        match key {
            Key::Frame => self.frame.is_some(),
            Key::Credit => self.credit.is_some(),
            // There may be several.
            Key::Break => false,
        }
    }

    fn set(&mut self, key: Key, n: u32) -> Result<(), UsageError<'a>>
        ensures { MatchResult result (λ _. self.new ≡ numbered key n self.old) (λ e. e ≡ NoMemory) }
    {
        match key {
            Key::Frame => self.frame = Some(n),
            Key::Credit => self.credit = Some(n),
            Key::Break => self.breaks.push(n)?,
        }
        self.awaits = None;
        Ok(())
    }

    // A break that does not come after all before it.
    fn is_early(&self, key: Key, n: u32) -> bool
        ensures { result ≡ early key n self.now }
    {
        match key {
            Key::Frame | Key::Credit => false,
            Key::Break => has_reached(self.breaks.as_slice(), n),
        }
    }

    fn read_number(&mut self, key: Key, word: &'a str) -> Result<(), UsageError<'a>>
        ensures { MatchResult result (λ _. Takes (Some key) word.now self.old self.new) (λ e. (e ≡ NoMemory) ⊎ ((t : SoFar) → Takes (Some key) word.now self.old t → ⊥)) }
    {
        let n = read_u32(word).ok_or(UsageError::BadNumber(key, word))?;
        if self.is_early(key, n) {
            return Err(UsageError::NotAfter(word));
        }
        self.set(key, n)
    }

    fn read_option(&mut self, key: Key) -> Result<(), UsageError<'a>>
        ensures { MatchResult result (λ _. (number_of key self.old ≡ None) × (self.new ≡ awaiting key self.old)) (λ _. (number_of key self.old ≢ None)) }
    {
        if self.is_given(key) {
            return Err(UsageError::Twice(key));
        }
        self.awaits = Some(key);
        Ok(())
    }

    fn read_file(&mut self, word: &'a str) -> Result<(), UsageError<'a>>
        ensures { MatchResult result (λ _. NamesFile word.now self.old self.new) (λ e. (e ≡ NoMemory) ⊎ ((t : SoFar) → NamesFile word.now self.old t → ⊥)) }
    {
        if word.starts_with('-') {
            return Err(UsageError::UnknownOption(word));
        }
        self.parcels.push(read_parcel(word)?)?;
        Ok(())
    }

    fn read(&mut self, word: &'a str) -> Result<(), UsageError<'a>>
        ensures { MatchResult result (λ _. Takes self.old.awaits word.now self.old self.new) (λ e. (e ≡ NoMemory) ⊎ ((t : SoFar) → Takes self.old.awaits word.now self.old t → ⊥)) }
    {
        if let Some(key) = self.awaits {
            return self.read_number(key, word);
        }
        match word.parse() {
            Ok(key) => self.read_option(key),
            Err(UnknownKey) => self.read_file(word),
        }
    }

    fn finish(self) -> Result<Options<'a>, UsageError<'a>>
        ensures { MatchResult result (λ o. Meant self.entry o) (λ _. (self.entry.awaits ≡ None → self.entry.parcels ≡ [])) }
    {
        if let Some(key) = self.awaits {
            return Err(UsageError::NoNumber(key));
        }
        if self.parcels.is_empty() {
            return Err(UsageError::NoFiles);
        }
        Ok(Options {
            frame: self.frame.unwrap_or(FRAME),
            credit: self.credit.unwrap_or(CREDIT),
            breaks: self.breaks,
            parcels: self.parcels,
        })
    }
}

// The file of `--spool FILE` where a command line begins so, and the words after it.
pub fn spool_file(words: &[String]) -> (Option<&str>, &[String])
    ensures file { option_map (λ f. f.now) result.0 ≡ (spool_of (map string_bytes words.now)).0 }
    ensures rest { map string_bytes result.1.now ≡ (spool_of (map string_bytes words.now)).1 }
{
    match words {
        [option, file, rest @ ..] if option.as_str() == "--spool" => (Some(file.as_str()), rest),
        _ => (None, words),
    }
}

// The options and files of a command line, without the program's own name and what a spool's file takes.
pub fn parse<'a>(heap: Global, words: &'a [String]) -> Result<Options<'a>, UsageError<'a>>
    ensures { MatchResult result (λ o. (s : SoFar) × TakesAll (map string_bytes words.now) unread s × Meant s o) (λ e. (e ≡ NoMemory) ⊎ Stops (map string_bytes words.now) unread) }
{
    let mut reading = Reading {
        frame: None,
        credit: None,
        breaks: Vec::new(heap),
        awaits: None,
        parcels: Vec::new(heap),
    };
    for word in words {
        reading.read(word.as_str())?;
    }
    reading.finish()
}
