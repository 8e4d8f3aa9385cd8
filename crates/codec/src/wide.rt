// The wide encoder: the longest codes, and every field.
ghost use Rattle.std.specs.Prelude.{◌≡◌};
ghost use Rattle.codec.specs.Wide.{wide_form};
ghost use Rattle.codec.specs.Headers.{wide_bytes, AtMost255};
ghost use Rattle.codec.specs.Forms.{wide_lawful};

use crate::form::Form;
use crate::scratch::{Scratch, append, append_coded};

#[derive(Clone, Copy)]
pub struct Wide;

impl Form for Wide {
    ghost form = { wide_form };

    ghost lawful = { wide_lawful };

    fn terse() -> bool {
        false
    }

    fn boolean(out: &mut Scratch, x: bool) {
        append_coded(out, 0x56, &[u8::from(x)]);
    }

    fn uint(out: &mut Scratch, x: u32) {
        append_coded(out, 0x70, &x.to_be_bytes());
    }

    fn ulong(out: &mut Scratch, x: u64) {
        append_coded(out, 0x80, &x.to_be_bytes());
    }

    fn binary(out: &mut Scratch, len: u8) {
        append_coded(out, 0xb0, &u32::from(len).to_be_bytes());
    }

    fn symbol(out: &mut Scratch, len: u8) {
        append_coded(out, 0xb3, &u32::from(len).to_be_bytes());
    }

    // The size counts the four bytes of the count.
    fn list(out: &mut Scratch, count: u8, len: u8) {
        append_coded(out, 0xd0, &u32::from(len + 4).to_be_bytes());
        append(out, &u32::from(count).to_be_bytes());
    }
}

// A wide header is at most 255 bytes long.
pub fn wide_is_at_most_255()
    ensures { AtMost255 wide_bytes }
{}
