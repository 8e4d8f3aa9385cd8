// A reader that fails once it has given so many bytes, and gives its own reader's bytes until then.
ghost use Rattle.std.specs.Prelude.{◌≡◌};

use std::io;
use std::io::{BufRead, ErrorKind, Read};

#[derive(Drop)]
pub struct Limited<R: Drop> {
    reader: R,
    left: usize,
}

impl<R: Drop> Limited<R> {
    // It gives nothing until it may.
    pub fn new(reader: R) -> Limited<R>
        ensures { result.reader ≡ reader }
    {
        Limited { reader, left: 0 }
    }

    // So many bytes from now on, and the rest of those that it had shown.
    pub fn allow(&mut self, bytes: usize)
        ensures { self.new.reader ≡ self.old.reader }
    {
        self.left = bytes;
    }
}

impl<R: Read + Drop> Read for Limited<R> {
    ghost remaining = { λ l. R.remaining l.reader };

    fn read(&mut self, buf: &mut [u8]) -> io::Result<usize> {
        self.reader.read(buf)
    }
}

impl<R: BufRead + Drop> BufRead for Limited<R> {
    ghost consumable_len = { λ l. R.consumable_len l.reader };

    fn fill_buf(&mut self) -> io::Result<&[u8]> {
        if self.left == 0 {
            return Err(io::Error::from(ErrorKind::FileTooLarge));
        }
        self.reader.fill_buf()
    }

    fn consume(&mut self, amount: usize) {
        self.left = self.left.saturating_sub(amount);
        self.reader.consume(amount);
    }
}
