// The lines of a run: `compact HEX` or `wide HEX`.
use amqp::header::Header;
use anyhow::{Result, bail, ensure};
use codec::compact::Compact;
use codec::encoder::Encoder;
use codec::error::ReadError;
use codec::wide::Wide;
use headers_text::hex::{HexFault, decode};
use headers_text::show::Shown;
use reader::reader::Reader;
use std::io::{BufRead, BufWriter, Write};
use std::{fmt, io};

// How many headers were read, and how many refused.
#[derive(Clone, Copy, Default)]
struct Tally {
    read: u64,
    refused: u64,
}

impl Tally {
    fn count(&mut self, outcome: &Result<Header, ReadError>) {
        let counter = match outcome {
            Ok(_) => &mut self.read,
            Err(_) => &mut self.refused,
        };
        *counter = counter.saturating_add(1);
    }
}

impl fmt::Display for Tally {
    fn fmt<W: fmt::Write>(&self, f: &mut fmt::Formatter<W>) -> fmt::Result {
        write!(f, "{} read, {} refused", self.read, self.refused)
    }
}

pub fn run<R: BufRead + Drop>(rt: &HostRuntime, mut input: R) -> Result<()> {
    let mut out = BufWriter::new(rt.alloc(), rt.stdout())?;
    // One vector holds every line in turn: `split` would allocate one for each.
    let mut line = Vec::new(rt.alloc());
    let mut bytes = Vec::new(rt.alloc());
    let mut tally = Tally::default();
    for n in 1..u64::MAX {
        line.clear();
        if input.read_until(b'\n', &mut line)? == 0 {
            break;
        }
        let text = line.trim_ascii();
        if matches!(text, [] | [b'#', ..]) {
            continue;
        }
        let outcome = judged(text, &mut bytes, n)?;
        tally.count(&outcome);
        print(&mut out, outcome)?;
    }
    writeln!(out, "{tally}")?;
    out.flush()?;
    Ok(())
}

// What the line `n` holds: the header of its bytes, or why they are none's.
fn judged(text: &[u8], bytes: &mut Vec<u8>, n: u64) -> Result<Result<Header, ReadError>> {
    if let Some(hex) = digits_after(text, b"compact") {
        checked(&Compact, hex, bytes, n)
    } else if let Some(hex) = digits_after(text, b"wide") {
        checked(&Wide, hex, bytes, n)
    } else {
        bail!("line {n}: neither `compact HEX` nor `wide HEX`")
    }
}

// What stands after the name of a form: no digits are no bytes.
fn digits_after<'a>(text: &'a [u8], form: &[u8]) -> Option<&'a [u8]> {
    text.strip_prefix(form)
        .filter(|rest| matches!(rest, [] | [b' ', ..]))
        .map(|rest| rest.trim_ascii())
}

// Reads the bytes that the digits write, and writes what was read again.
fn checked<E: Reader>(
    encoder: &E,
    hex: &[u8],
    bytes: &mut Vec<u8>,
    n: u64,
) -> Result<Result<Header, ReadError>> {
    bytes.clear();
    match decode(hex, bytes) {
        Ok(()) => {}
        Err(HexFault::Memory) => bail!("out of memory"),
        Err(_) => bail!("line {n}: not pairs of digits from 0 to 9 and a to f"),
    }
    let outcome = encoder.read(bytes);
    if let Ok(header) = &outcome {
        let same = writes_as(encoder, header, bytes);
        ensure!(same, "line {n}: the header is written as other bytes");
    }
    Ok(outcome)
}

// The encoder writes the header as these bytes.
fn writes_as<E: Encoder>(encoder: &E, header: &Header, bytes: &[u8]) -> bool {
    // An encoder writes into memory that is lent to it.
    let mut again = [0; 256];
    let written = encoder.write(header, &mut again);
    written.is_ok_and(|len| again.get(..len) == Some(bytes))
}

fn print<W: Write>(out: &mut W, outcome: Result<Header, ReadError>) -> io::Result<()> {
    match outcome {
        Ok(header) => writeln!(out, "{}", Shown(header)),
        Err(error) => {
            let ReadError::NotEncoded { at } = error;
            writeln!(out, "refused {} at {at}", error.number())
        }
    }
}
