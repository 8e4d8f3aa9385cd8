// Comparing bytes with those that are written.
ghost use Rattle.std.specs.Prelude.{◌≡◌, ◌≤◌, length};
ghost use Rattle.reader.specs.Agree.{agree, past_zeros, only as only_of};
ghost use Rattle.reader.specs.Headers.{refused};

use amqp::header::Header;
use codec::error::ReadError;

// How many bytes at the front are the same.
fn agreement(a: &[u8], b: &[u8]) -> usize
    ensures value { result ≡ agree a.now b.now }
    ensures within { result ≤ length a.now }
{
    a.iter().zip(b).take_while(|(x, y)| x == y).count()
}

// The first of the zeros right before a place.
fn before_zeros(src: &[u8], at: usize) -> usize
    requires { at ≤ length src.now }
    ensures { result ≡ past_zeros src.now at }
{
    let zeros = src[..at]
        .iter()
        .rev()
        .take_while(|byte| **byte == 0)
        .count();
    at - zeros
}

// The header, if `src` is its bytes; else the place of the first spare byte, or of the first size
// that is wrong: all of a size before the byte that differs is zero, and its code is not.
pub(crate) fn only(src: &[u8], bytes: &[u8], header: Header) -> Result<Header, ReadError>
    ensures { result ≡ refused (only_of src.now bytes.now header) }
{
    if src == bytes {
        return Ok(header);
    }
    let n = agreement(src, bytes);
    let at = if n == bytes.len() {
        n
    } else {
        before_zeros(src, n)
    };
    Err(ReadError::NotEncoded { at })
}
