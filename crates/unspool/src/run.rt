// Reading files, each whole.
ghost use Rattle.std.specs.Prelude.{◌≡◌, ◌+◌, ◌++◌, min, length, codes, decimal, Some};

use crate::line::Line;
use anyhow::Result;
use codec::error::ReadError;
use sink::frame::Frame;
use spool::record::read;
use std::io::{BufWriter, Write};
use std::{fmt, fs, io};

// How many records were read, and how long their payloads are together.
#[derive(Clone, Copy, Default)]
struct Tally {
    records: u64,
    payload: u64,
}

impl Tally {
    // A count that would be too large stays at the largest.
    fn count(&mut self, frame: &Frame<'_>)
        ensures records { self.new.records ≡ min (self.old.records + 1) 18446744073709551615 }
        ensures payload { self.new.payload ≡ min (self.old.payload + length frame.now.payload.now) 18446744073709551615 }
    {
        self.records = self.records.saturating_add(1);
        self.payload = self.payload.saturating_add(frame.payload.len() as u64);
    }
}

impl fmt::Display for Tally {
    ghost output = { λ t. Some (decimal t.records ++ (codes " records, " ++ (decimal t.payload ++ codes " bytes of payload"))) };

    fn fmt<W: fmt::Write>(&self, f: &mut fmt::Formatter<W>) -> fmt::Result {
        write!(
            f,
            "{} records, {} bytes of payload",
            self.records, self.payload
        )
    }
}

// Whether every file is sound: one that is not is read up to its fault.
pub fn run(rt: &HostRuntime, paths: &[String]) -> Result<bool> {
    let mut out = BufWriter::new(rt.alloc(), rt.stdout())?;
    let mut sound = true;
    for path in paths {
        let path = path.as_str();
        let file = fs::read(rt, path)?;
        sound &= print_file(&mut out, path, file.as_slice())?;
    }
    out.flush()?;
    Ok(sound)
}

// Prints a line for each record up to the first fault, its place in the file, and the totals.
fn print_file<W: Write>(out: &mut W, path: &str, bytes: &[u8]) -> io::Result<bool> {
    let mut tally = Tally::default();
    let fault = print_records(out, bytes, &mut tally)?;
    if let Some(fault) = fault {
        let ReadError::NotEncoded { at } = fault;
        writeln!(out, "refused {} at {at}", fault.number())?;
    }
    writeln!(out, "{path}: {tally}")?;
    Ok(fault.is_none())
}

// The first fault.
fn print_records<W: Write>(
    out: &mut W,
    bytes: &[u8],
    tally: &mut Tally,
) -> io::Result<Option<ReadError>> {
    let mut at = 0;
    while at < bytes.len() {
        match read(bytes, at) {
            Ok((frame, next)) => {
                writeln!(out, "{}", Line(frame))?;
                tally.count(&frame);
                at = next;
            }
            Err(fault) => return Ok(Some(fault)),
        }
    }
    Ok(None)
}
