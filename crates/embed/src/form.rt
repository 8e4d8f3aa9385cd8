// The forms of headers, by their numbers: 0 compact, 1 wide.
ghost use Rattle.std.specs.Prelude.{◌≡◌, Some, None};

use amqp::error::MemoryError;
use amqp::header::Header;
use codec::compact::Compact;
use codec::encoder::Encoder;
use codec::error::ReadError;
use codec::wide::Wide;
use reader::reader::Reader;

#[derive(Clone, Copy)]
pub(crate) enum Form {
    Compact,
    Wide,
}

impl Form {
    ghost use Rattle.std.specs.Prelude.{length};
    ghost use Rattle.codec.specs.Written.{written, after_write};
    ghost use Rattle.embed.specs.Forms.{form_of, bytes_in, read_in};

    pub(crate) fn from_number(number: u8) -> Option<Form>
        ensures { result ≡ form_of number }
    {
        match number {
            0 => Some(Form::Compact),
            1 => Some(Form::Wide),
            _ => None,
        }
    }

    pub(crate) fn size(self, header: &Header) -> usize
        ensures { result ≡ length (bytes_in self header.now) }
    {
        match self {
            Form::Compact => Compact.size(header),
            Form::Wide => Wide.size(header),
        }
    }

    pub(crate) fn write(self, header: &Header, out: &mut [u8]) -> Result<usize, MemoryError>
        ensures answer { result ≡ written (bytes_in self header.now) out.old }
        ensures after { out.new ≡ after_write (bytes_in self header.now) out.old }
    {
        match self {
            Form::Compact => Compact.write(header, out),
            Form::Wide => Wide.write(header, out),
        }
    }

    pub(crate) fn read(self, bytes: &[u8]) -> Result<Header, ReadError>
        ensures { result ≡ read_in self bytes.now }
    {
        match self {
            Form::Compact => Compact.read(bytes),
            Form::Wide => Wide.read(bytes),
        }
    }
}
