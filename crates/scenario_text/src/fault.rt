// What is wrong with a line.
ghost use Rattle.std.specs.Prelude.{◌≡◌, Some};
ghost use Rattle.scenario_text.specs.Faults.{digits_fault, fault_text};

use headers_text::hex::HexFault;
use std::fmt;

// Each tells the word that it is about.
#[derive(Clone, Copy, PartialEq, Eq)]
pub enum Fault {
    UnknownCommand,
    Missing(&'static str),
    OtherKey(&'static str),
    NotInRange(&'static str),
    OddDigits(&'static str),
    NoDigit(&'static str),
    TooLong(&'static str),
    UnknownWord(&'static str),
    WordTooMany,
    OutOfMemory,
}

impl Fault {
    // What is wrong with a word that should be bytes in digits.
    pub fn of_digits(key: &'static str, fault: HexFault) -> Fault
        ensures { result ≡ digits_fault key.entry fault }
    {
        match fault {
            HexFault::Odd => Fault::OddDigits(key),
            HexFault::NoDigit => Fault::NoDigit(key),
            HexFault::Memory => Fault::OutOfMemory,
        }
    }
}

impl fmt::Display for Fault {
    ghost output = { λ f. Some (fault_text f) };

    fn fmt<W: fmt::Write>(&self, f: &mut fmt::Formatter<W>) -> fmt::Result {
        match *self {
            Fault::UnknownCommand => f.write_str("no such command"),
            Fault::Missing(key) => write!(f, "{key} is missing"),
            Fault::OtherKey(key) => write!(f, "{key} is expected here"),
            Fault::NotInRange(key) => write!(f, "{key} is no number in its range"),
            Fault::OddDigits(key) => write!(f, "{key} has half a byte"),
            Fault::NoDigit(key) => write!(f, "{key} has a character that is no digit"),
            Fault::TooLong(key) => write!(f, "{key} is longer than 32 bytes"),
            Fault::UnknownWord(key) => write!(f, "{key} has an unknown value"),
            Fault::WordTooMany => f.write_str("a word too many"),
            Fault::OutOfMemory => f.write_str("out of memory"),
        }
    }
}
