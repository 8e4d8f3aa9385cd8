// The compact encoder: the shortest codes, and nothing that can be left out.
ghost use Rattle.std.specs.Prelude.{◌≡◌, ◌+◌, ◌≤◌, length};
ghost use Rattle.codec.specs.Bodies.{HasRoom, Appended};
ghost use Rattle.codec.specs.Compact.{compact_form, shortest};
ghost use Rattle.codec.specs.Headers.{compact_bytes, AtMost255, PlainMeasures21};
ghost use Rattle.codec.specs.Forms.{compact_lawful};

use crate::codes::{Codes, UINT, ULONG};
use crate::form::Form;
use crate::scratch::{Scratch, append_coded};

#[derive(Clone, Copy)]
pub struct Compact;

fn append_shortest(out: &mut Scratch, codes: Codes, x: u64, digits: &[u8])
    requires room { HasRoom (length digits.now + 1) out.old }
    requires some { 1 ≤ length digits.now }
    ensures { Appended (length digits.now + 1) (shortest codes.none codes.small codes.wide digits.now x) out.old out.new }
{
    if x == 0 {
        out.push(codes.none);
    } else if x < 256 {
        append_coded(out, codes.small, &[x as u8]);
    } else {
        append_coded(out, codes.wide, digits);
    }
}

impl Form for Compact {
    ghost form = { compact_form };

    ghost lawful = { compact_lawful };

    fn terse() -> bool {
        true
    }

    fn boolean(out: &mut Scratch, x: bool) {
        out.push(if x { 0x41 } else { 0x42 });
    }

    fn uint(out: &mut Scratch, x: u32) {
        append_shortest(out, UINT, u64::from(x), &x.to_be_bytes());
    }

    fn ulong(out: &mut Scratch, x: u64) {
        append_shortest(out, ULONG, x, &x.to_be_bytes());
    }

    fn binary(out: &mut Scratch, len: u8) {
        append_coded(out, 0xa0, &[len]);
    }

    fn symbol(out: &mut Scratch, len: u8) {
        append_coded(out, 0xa3, &[len]);
    }

    // The size counts the byte of the count.
    fn list(out: &mut Scratch, count: u8, len: u8) {
        if count == 0 {
            out.push(0x45);
        } else {
            append_coded(out, 0xc0, &[len + 1, count]);
        }
    }
}

// A compact header is at most 255 bytes long. Forms are private to this crate, so each has a statement of its own.
pub fn compact_is_at_most_255()
    ensures { AtMost255 compact_bytes }
{}

// A new delivery's transfer with handle 0, a tag of 4 bytes and format 0, unsettled, measures 21 bytes.
pub fn plain_transfer_measures_21()
    ensures { PlainMeasures21 }
{}
