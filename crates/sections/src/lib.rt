// Where the sections of a message begin, and where a place in one lies (Part 3, 3.2 and 3.4.1).
#![tactic(auto)]

ghost use Rattle.std.specs.Prelude.{◌≡◌};
ghost use Rattle.sections.specs.Sections.{section_header, start_of, OnePosition, NextSection, NumberedSection};

use amqp::state::Received;

// The first byte of a described value, and the codes of a descriptor in one byte and in eight (Part 1, 1.6).
const DESCRIBED_TYPE: u8 = 0x00;

const SMALL_ULONG_TYPE: u8 = 0x53;

const ULONG_TYPE: u8 = 0x80;

// The codes of a section, from header to footer (Part 3, 3.2).
const HEADER_CODE: u8 = 0x70;

const FOOTER_CODE: u8 = 0x78;

// These three bytes are taken for the beginning of a section, wherever they stand.
pub fn is_section_header(b0: u8, b1: u8, b2: u8) -> bool
    ensures { result ≡ section_header b0 b1 b2 }
{
    matches!(
        (b0, b1, b2),
        (
            DESCRIBED_TYPE,
            SMALL_ULONG_TYPE | ULONG_TYPE,
            HEADER_CODE..=FOOTER_CODE,
        )
    )
}

// The first section that begins at `from` or past it.
fn next_section(message: &[u8], from: usize) -> Option<usize>
    ensures { NextSection message.now from result }
{
    let rest = message.get(from..)?;
    for (i, bytes) in rest.windows(3).enumerate() {
        if is_section_header(bytes[0], bytes[1], bytes[2]) {
            return Some(from + i);
        }
    }
    None
}

// The section of a number, counted from 0.
fn section(message: &[u8], number: u32) -> Option<usize>
    ensures { NumberedSection message.now number result }
{
    let mut start = next_section(message, 0)?;
    for _ in 0..number {
        start = next_section(message, start + 1)?;
    }
    Some(start)
}

// Where a place lies in a message: in the section that it says, as many bytes past the section's first. Only positions where a
// section could begin count: three bytes are left there at least.
pub fn split_off_at_section_and_offset(message: &[u8], place: &Received) -> Option<usize>
    ensures value { result ≡ start_of message.now place.now }
    ensures one { OnePosition message.now place.now result }
{
    let start = section(message, place.section_number)?;
    let most = message.len() - 3 - start;
    if place.section_offset > most as u64 {
        return None;
    }
    let i = start + place.section_offset as usize;
    // Past the beginning of another section, the place is not in this one.
    match next_section(&message[..i + 3], start + 1) {
        Some(_) => None,
        None => Some(i),
    }
}
