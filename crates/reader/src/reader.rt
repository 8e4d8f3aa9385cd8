// What a reader of headers is, and those of each form.
ghost use Rattle.std.specs.Prelude.{◌≡◌, ℕ, List, Result as ResultModel};
ghost use Rattle.amqp.specs.declared.header.Header.{Header as HeaderModel};
ghost use Rattle.codec.specs.declared.error.ReadError.{ReadError as ReadErrorModel};
ghost use Rattle.codec.specs.Headers.{header_bytes};
ghost use Rattle.reader.specs.Headers.{read_of};
ghost use Rattle.reader.specs.Exact.{Exact};
ghost use Rattle.reader.specs.Fault.{Bytes, Placed, OtherKind};
ghost use Rattle.reader.specs.Faults.{placed_by};
ghost use Rattle.reader.specs.Codes.{MissingCode};
ghost use Rattle.reader.specs.Sizes.{WrongSize};
ghost use Rattle.reader.specs.Whole.{exact_by};

use crate::header::whole;
use crate::parse::Parse;
use amqp::header::Header;
use codec::encoder::Encoder;
use codec::error::ReadError;

pub trait Reader: Encoder {
    // The header of bytes, or the place where they are no header's.
    ghost reads: { Self → List ℕ → ResultModel HeaderModel ReadErrorModel };

    fn read(&self, bytes: &[u8]) -> Result<Header, ReadError>
        ensures { result ≡ reads self.now bytes.now };

    ghost exact: { (e : Self) (src : List ℕ) → Exact (Self.Encoder.bytes e) src (reads e src) };

    ghost placed: { (e : Self) (src : List ℕ) → Bytes src → Placed (Self.Encoder.bytes e) (reads e) src (reads e src) };
}

// Each form is read.
impl<P: Parse> Reader for P {
    ghost reads = { λ _ src. read_of P.reading src };

    ghost exact = { λ e src. exact_by P.reading P.lawful (P.bytes e) (P.writes e) src };

    ghost placed = { λ e src. placed_by P.reading P.lawful P.steady (P.bytes e) (P.writes e) src };

    fn read(&self, bytes: &[u8]) -> Result<Header, ReadError>
        ensures value { result ≡ read_of P.reading bytes.now }
        ensures exact { Exact (header_bytes P.reading.form) bytes.now result }
        ensures placed { Placed (header_bytes P.reading.form) (read_of P.reading) bytes.now result }
        ensures other_kind { OtherKind P.reading.form bytes.now result }
        ensures missing_code { MissingCode P.reading.form bytes.now result }
        ensures wrong_size { WrongSize P.reading.form bytes.now result }
    {
        whole(self, bytes)
    }
}
