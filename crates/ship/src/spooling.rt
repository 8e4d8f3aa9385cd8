// The file to which the records of a spool go.
ghost use Rattle.std.specs.Prelude.{◌≡◌, ◌+◌, ◌++◌, min, length, decimal, codes, Some, OnOk, OnErr};
ghost use Rattle.std.specs.Io.KnownBytes.{Appends};

use spool::record::read;
use std::io::Write;
use std::{fmt, io};

#[derive(Drop)]
pub struct SpoolFile<W: Write + Drop> {
    out: W,
    records: u64,
    bytes: u64,
}

// How many records stand there.
fn count(log: &[u8]) -> u64 {
    let mut at = 0;
    let mut records: u64 = 0;
    while let Ok((_, next)) = read(log, at) {
        at = next;
        records = records.saturating_add(1);
    }
    records
}

impl<W: Write + Drop> SpoolFile<W> {
    pub fn new(out: W) -> SpoolFile<W>
        ensures { (result.out ≡ out) × (result.records ≡ 0) × (result.bytes ≡ 0) }
    {
        SpoolFile {
            out,
            records: 0,
            bytes: 0,
        }
    }

    // The log joins the file. A count that would be too large stays at the largest.
    pub fn append(&mut self, log: &[u8]) -> io::Result<()>
        ensures written { OnOk result (Appends (W.contents self.old.out) (W.contents self.new.out) log.now) }
        ensures bytes { OnOk result (self.new.bytes ≡ min (self.old.bytes + length log.now) 18446744073709551615) }
        ensures kept { OnErr result ((self.new.bytes ≡ self.old.bytes) × (self.new.records ≡ self.old.records)) }
    {
        self.out.write_all(log)?;
        self.records = self.records.saturating_add(count(log));
        self.bytes = self.bytes.saturating_add(log.len() as u64);
        Ok(())
    }

    pub fn flush(&mut self) -> io::Result<()>
        ensures { (self.new.bytes ≡ self.old.bytes) × (self.new.records ≡ self.old.records) }
    {
        self.out.flush()
    }
}

impl<W: Write + Drop> fmt::Display for SpoolFile<W> {
    ghost output = { λ s. Some (decimal s.records ++ (codes " records, " ++ (decimal s.bytes ++ codes " bytes"))) };

    fn fmt<F: fmt::Write>(&self, f: &mut fmt::Formatter<F>) -> fmt::Result {
        write!(f, "{} records, {} bytes", self.records, self.bytes)
    }
}
