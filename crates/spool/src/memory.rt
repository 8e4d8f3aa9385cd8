// Memory that is filled from its front, record by record.
ghost use Rattle.std.specs.Prelude.{◌≤◌, vec_len};

use crate::kind::code_of;
use crate::layout::{FIELDS, HEADER};
use amqp::error::MemoryError;
use codec::compact::Compact;
use codec::encoder::Encoder;
use sink::frame::Frame;

#[derive(Drop)]
pub(crate) struct Memory {
    bytes: Vec<u8>,
    used: usize,
    ghost within: { used ≤ vec_len bytes },
}

impl Memory {
    ghost use Rattle.std.specs.Prelude.{◌≡◌, ◌+◌, ◌-◌, ◌++◌, length};
    ghost use Rattle.codec.specs.Written.{written, after_write};
    ghost use Rattle.sink.specs.Frames.{waiting_of};
    ghost use Rattle.spool.specs.Records.{record_of};
    ghost use Rattle.spool.specs.Exact.{FrameFits};
    ghost use Rattle.spool.specs.Memories.{laid, free};

    pub(crate) fn new(bytes: Vec<u8>) -> Memory
        ensures bytes { result.bytes ≡ bytes }
        ensures used { result.used ≡ 0 }
    {
        Memory { bytes, used: 0 }
    }

    pub(crate) fn into_bytes(self) -> Vec<u8>
        ensures { result ≡ self.bytes }
    {
        let Memory { bytes, .. } = self;
        bytes
    }

    pub(crate) fn free(&self) -> usize
        ensures { result ≡ free self.now }
    {
        self.bytes.len() - self.used
    }

    fn append(&mut self, part: &[u8])
        requires { length part.now ≤ free self.old }
        ensures laid { laid self.new ≡ laid self.old ++ part.now }
        ensures free { free self.new + length part.now ≡ free self.old }
        ensures size { vec_len self.new.bytes ≡ vec_len self.old.bytes }
    {
        let at = self.used;
        self.bytes[at..at + part.len()].copy_from_slice(part);
        self.used += part.len();
    }

    // How many bytes were laid.
    pub(crate) fn used(&self) -> usize
        ensures { result ≡ length (laid self.now) }
    {
        self.used
    }

    // Lays the frame's record at the end.
    pub(crate) fn append_record(&mut self, frame: Frame<'_>)
        requires narrow { length frame.payload.now ≤ 65535 }
        requires room { 267 + length frame.payload.now ≤ free self.old }
        ensures laid { laid self.new ≡ laid self.old ++ record_of (waiting_of frame.entry) }
        ensures free { free self.new + length (record_of (waiting_of frame.entry)) ≡ free self.old }
        ensures size { vec_len self.new.bytes ≡ vec_len self.old.bytes }
        ensures fits { FrameFits (waiting_of frame.entry) }
    {
        let mut header = [0; HEADER];
        let size = Compact.write(&frame.header, &mut header).unwrap();
        let rest = FIELDS + size + frame.payload.len();
        self.append(&(rest as u32).to_le_bytes());
        self.append(&code_of(frame.kind).to_le_bytes());
        self.append(&frame.handle.to_le_bytes());
        self.append(&(size as u16).to_le_bytes());
        self.append(&header[..size]);
        self.append(frame.payload);
    }

    // What was laid goes to the front of `out`, and how many bytes that are.
    pub(crate) fn read(&self, out: &mut [u8]) -> Result<usize, MemoryError>
        ensures answer { result ≡ written (laid self.now) out.old }
        ensures after { out.new ≡ after_write (laid self.now) out.old }
    {
        if out.len() < self.used {
            return Err(MemoryError::TooShort);
        }
        out[..self.used].copy_from_slice(&self.bytes[..self.used]);
        Ok(self.used)
    }

    pub(crate) fn clear(&mut self)
        ensures bytes { self.new.bytes ≡ self.old.bytes }
        ensures used { self.new.used ≡ 0 }
    {
        self.used = 0;
    }
}
