// Why a scenario cannot go on: its lines ask for what is not there, or there is no more memory, input or output.
ghost use Rattle.std.specs.Prelude.{◌≡◌};
ghost use Rattle.scenario_play.specs.Troubles.{trouble_text, failure_text};
ghost use Rattle.scenario_play.specs.declared.trouble.Trouble.TheVariants.{Text, Memory, Io};

use scenario_text::fault::Fault;
use std::alloc::{AllocError, AllocFailed};
use std::{fmt, io};

#[derive(Drop)]
pub enum Trouble {
    // The line is no command, or its words are wrong.
    Text(Fault),
    NoText,
    TooLong,
    // The first line makes the link, the second its sink, and there are no others of these.
    NoLink,
    NoSink,
    Again,
    // A queue is taken from, and a spool emptied.
    WrongSink,
    File,
    LargePool,
    Memory,
    Io(io::Error),
}

// A trouble, and the line at which it came.
#[derive(Drop)]
pub struct Failure {
    pub line: u64,
    pub trouble: Trouble,
}

impl From<AllocError> for Trouble {
    ghost from_gives = { λ _ t. t ≡ Memory };

    fn from(_e: AllocError) -> Trouble {
        Trouble::Memory
    }
}

impl<T: Drop> From<AllocFailed<T>> for Trouble {
    ghost from_gives = { λ _ t. t ≡ Memory };

    fn from(_e: AllocFailed<T>) -> Trouble {
        Trouble::Memory
    }
}

impl From<io::Error> for Trouble {
    ghost from_gives = { λ e t. t ≡ Io e };

    fn from(e: io::Error) -> Trouble {
        Trouble::Io(e)
    }
}

impl From<Fault> for Trouble {
    ghost from_gives = { λ f t. t ≡ Text f };

    fn from(fault: Fault) -> Trouble {
        Trouble::Text(fault)
    }
}

impl fmt::Display for Trouble {
    ghost output = { λ t. trouble_text t };

    fn fmt<W: fmt::Write>(&self, f: &mut fmt::Formatter<W>) -> fmt::Result {
        match self {
            Trouble::Text(fault) => write!(f, "{fault}"),
            Trouble::NoText => f.write_str("it is no text"),
            Trouble::TooLong => f.write_str("it is longer than any command"),
            Trouble::NoLink => f.write_str("the first line has to make the link"),
            Trouble::NoSink => f.write_str("the second line has to make a queue or a spool"),
            Trouble::Again => f.write_str("the link and its sink are made already"),
            Trouble::WrongSink => f.write_str("a queue is taken from, and a spool is emptied"),
            Trouble::File => f.write_str("the file cannot be read"),
            Trouble::LargePool => f.write_str("a pool has 70,000,000 bytes at most"),
            Trouble::Memory => f.write_str("out of memory"),
            Trouble::Io(e) => write!(f, "{e}"),
        }
    }
}

impl fmt::Display for Failure {
    ghost output = { λ f. failure_text f };

    fn fmt<W: fmt::Write>(&self, f: &mut fmt::Formatter<W>) -> fmt::Result {
        write!(f, "line {}: {}", self.line, self.trouble)
    }
}
