// Reading a record: a length of the rest, a kind, a handle, a header's length, a compact header and a payload.
ghost use Rattle.std.specs.Prelude.{◌≡◌, ◌<◌, ◌≤◌, ◌∷◌, [], length, drop, MatchResult};
ghost use Rattle.sink.specs.Frames.{waiting_of};
ghost use Rattle.spool.specs.Reading.{part_at, header_at, place_of, read_of, read_at, frames_in};
ghost use Rattle.spool.specs.Exact.{Exact};
ghost use Rattle.spool.specs.Told.{told, spelled};

use crate::kind::kind_of;
use crate::layout::{FIELDS, LENGTH};
use amqp::header::Header;
use codec::compact::Compact;
use codec::error::ReadError;
use reader::reader::Reader;
use sink::frame::Frame;

// So many bytes from a place on.
fn part(bytes: &[u8], at: usize, size: usize) -> Result<&[u8], ReadError>
    ensures { spelled result ≡ part_at size at bytes.now }
{
    match bytes.get(at..) {
        Some(rest) if size <= rest.len() => Ok(&rest[..size]),
        _ => Err(ReadError::NotEncoded { at: bytes.len() }),
    }
}

// So many bytes from a place on, as an array.
fn chunk<const N: usize>(bytes: &[u8], at: usize) -> Result<[u8; N], ReadError>
    ensures { result ≡ part_at N at bytes.now }
{
    let fault = ReadError::NotEncoded { at: bytes.len() };
    let rest = bytes.get(at..).ok_or(fault)?;
    let (chunk, _) = rest.split_first_chunk::<N>().ok_or(fault)?;
    Ok(*chunk)
}

// The header that stands past the fields.
fn header(bytes: &[u8], size: usize) -> Result<Header, ReadError>
    ensures { result ≡ header_at size bytes.now }
{
    let at = LENGTH + FIELDS;
    let header = part(bytes, at, size)?;
    match Compact.read(header) {
        Ok(header) => Ok(header),
        Err(ReadError::NotEncoded { at: fault }) => Err(ReadError::NotEncoded {
            at: fault.saturating_add(at).min(bytes.len()),
        }),
    }
}

// The record at the front: its frame, and how many bytes it has.
#[tactic(auto, unfolding(crate::specs::Reading::read_of))]
fn front(bytes: &[u8]) -> Result<(Frame<'_>, usize), ReadError>
    ensures value { told result ≡ read_of bytes.now }
    ensures place { MatchResult result (λ r. r.1 ≤ length bytes.now) (λ e. place_of e ≤ length bytes.now) }
{
    let rest = u32::from_le_bytes(chunk(bytes, 0)?) as usize;
    if rest < FIELDS {
        return Err(ReadError::NotEncoded { at: 0 });
    }
    let code = u16::from_le_bytes(chunk(bytes, LENGTH)?);
    let kind = kind_of(code).ok_or(ReadError::NotEncoded { at: LENGTH })?;
    let handle = u32::from_le_bytes(chunk(bytes, LENGTH + 2)?);
    let size = usize::from(u16::from_le_bytes(chunk(bytes, LENGTH + 6)?));
    if rest < FIELDS + size {
        return Err(ReadError::NotEncoded { at: LENGTH + 6 });
    }
    let header = header(bytes, size)?;
    let payload = part(bytes, LENGTH + FIELDS + size, rest - FIELDS - size)?;
    let frame = Frame {
        kind,
        handle,
        header,
        payload,
    };
    Ok((frame, LENGTH + rest))
}

// The record that begins at a place of the bytes: its frame, and where the next begins.
pub fn read(bytes: &[u8], at: usize) -> Result<(Frame<'_>, usize), ReadError>
    ensures value { told result ≡ read_at at bytes.now }
    ensures exact { Exact (drop at bytes.now) (read_of (drop at bytes.now)) }

    // So read one after the other, the records are those of the frames that the bytes read back to.
    ensures frames { MatchResult result (λ r. frames_in (drop at bytes.now) ≡ waiting_of r.0 ∷ frames_in (drop r.1 bytes.now)) (λ _. frames_in (drop at bytes.now) ≡ []) }
    ensures place { MatchResult result (λ r. (at < r.1) × (r.1 ≤ length bytes.now)) (λ e. place_of e ≤ length bytes.now) }
{
    let at = at.min(bytes.len());
    match front(&bytes[at..]) {
        Ok((frame, size)) => Ok((frame, at + size)),
        Err(ReadError::NotEncoded { at: fault }) => Err(ReadError::NotEncoded { at: at + fault }),
    }
}
