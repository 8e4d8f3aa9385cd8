// Where sections begin, and where places lie in a message.
use crate::word::{bytes, long_number, number};
use amqp::state::Received;
use anyhow::{Context, Result};
use sections::{is_section_header, split_off_at_section_and_offset};
use std::alloc::Global;
use std::io::Write;

pub(crate) fn search<W: Write>(
    message: &str,
    section: &str,
    offset: &str,
    heap: Global,
    out: &mut W,
) -> Result<()> {
    let message = bytes(message, heap)?;
    let place = Received {
        section_number: number(section)?,
        section_offset: long_number(offset)?,
    };
    match split_off_at_section_and_offset(message.as_slice(), &place) {
        Some(start) => writeln!(out, "{start}")?,
        None => writeln!(out, "none")?,
    }
    Ok(())
}

// All places of the first sections, at the first offsets of each.
pub(crate) fn all<W: Write>(
    message: &str,
    sections: &str,
    offsets: &str,
    heap: Global,
    out: &mut W,
) -> Result<()> {
    let message = bytes(message, heap)?;
    let offsets = long_number(offsets)?;
    let mut blank = "";
    for section_number in 0..number(sections)? {
        for section_offset in 0..offsets {
            let place = Received {
                section_number,
                section_offset,
            };
            match split_off_at_section_and_offset(message.as_slice(), &place) {
                Some(start) => write!(out, "{blank}{start}")?,
                None => write!(out, "{blank}-")?,
            }
            blank = " ";
        }
    }
    writeln!(out)?;
    Ok(())
}

// The third bytes with which these two begin a section.
pub(crate) fn codes<W: Write>(first: &str, second: &str, heap: Global, out: &mut W) -> Result<()> {
    let b0 = *bytes(first, heap)?.first().context("no byte")?;
    let b1 = *bytes(second, heap)?.first().context("no byte")?;
    let mut found = false;
    for b2 in 0..=255 {
        if is_section_header(b0, b1, b2) {
            write!(out, "{b2:02x}")?;
            found = true;
        }
    }
    writeln!(out, "{}", if found { "" } else { "-" })?;
    Ok(())
}
