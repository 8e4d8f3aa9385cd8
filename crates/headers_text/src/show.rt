// What is printed of a header.
ghost use Rattle.std.specs.Prelude.{Some};
ghost use Rattle.std.specs.Fmt.{WritesOnOk};
ghost use Rattle.headers_text.specs.Hex.{pairs};
ghost use Rattle.headers_text.specs.Shows.{bytes_text, tag_text, header_text, transfer_text, delivery_text, flags_text, disposition_text};

use amqp::header::{Disposition, Header, Transfer};
use amqp::tag::DeliveryTag;
use amqp::text::{Or, YesNo};
use std::fmt;

fn write_digits<W: fmt::Write>(bytes: &[u8], f: &mut fmt::Formatter<W>) -> fmt::Result
    ensures { WritesOnOk W.write_str_gives f.old result (pairs bytes.now) f.new }
{
    for b in bytes {
        write!(f, "{b:02x}")?;
    }
    Ok(())
}

// Bytes in digits, or a dash where there are none.
#[derive(Clone, Copy)]
pub struct ByteDigits<'b>(pub &'b [u8]);

impl fmt::Display for ByteDigits<'_> {
    ghost output = { λ b. Some (bytes_text b.0.now) };

    fn fmt<W: fmt::Write>(&self, f: &mut fmt::Formatter<W>) -> fmt::Result {
        if self.0.is_empty() {
            f.write_str("-")
        } else {
            write_digits(self.0, f)
        }
    }
}

// A tag's bytes in digits.
#[derive(Clone, Copy)]
pub struct Digits(pub DeliveryTag);

impl fmt::Display for Digits {
    ghost output = { λ t. Some (tag_text t.0) };

    fn fmt<W: fmt::Write>(&self, f: &mut fmt::Formatter<W>) -> fmt::Result {
        write!(f, "{}", ByteDigits(self.0.as_slice()))
    }
}

// A header, in one line.
#[derive(Clone, Copy)]
pub struct Shown(pub Header);

impl fmt::Display for Shown {
    ghost output = { λ h. Some (header_text h.0) };

    fn fmt<W: fmt::Write>(&self, f: &mut fmt::Formatter<W>) -> fmt::Result {
        match &self.0 {
            Header::Transfer(h) => transfer(h, f),
            Header::Disposition(h) => disposition(h, f),
        }
    }
}

fn transfer<W: fmt::Write>(h: &Transfer, f: &mut fmt::Formatter<W>) -> fmt::Result
    ensures { WritesOnOk W.write_str_gives f.old result (transfer_text h.now) f.new }
{
    delivery(h, f)?;
    flags(h, f)
}

// What says which delivery it is of.
fn delivery<W: fmt::Write>(h: &Transfer, f: &mut fmt::Formatter<W>) -> fmt::Result
    ensures { WritesOnOk W.write_str_gives f.old result (delivery_text h.now) f.new }
{
    let handle = h.handle;
    let id = Or(h.delivery_id, "none");
    let tag = Or(h.delivery_tag.map(Digits), "none");
    let format = Or(h.message_format, "none");
    let settled = Or(h.settled.map(YesNo), "none");
    write!(
        f,
        "transfer handle={handle} id={id} tag={tag} format={format} settled={settled}"
    )
}

fn flags<W: fmt::Write>(h: &Transfer, f: &mut fmt::Formatter<W>) -> fmt::Result
    ensures { WritesOnOk W.write_str_gives f.old result (flags_text h.now) f.new }
{
    let more = YesNo(h.more);
    let state = Or(h.state, "none");
    let resume = YesNo(h.resume);
    let aborted = YesNo(h.aborted);
    let batchable = YesNo(h.batchable);
    write!(
        f,
        " more={more} state={state} resume={resume} aborted={aborted} batchable={batchable}"
    )
}

fn disposition<W: fmt::Write>(h: &Disposition, f: &mut fmt::Formatter<W>) -> fmt::Result
    ensures { WritesOnOk W.write_str_gives f.old result (disposition_text h.now) f.new }
{
    let first = h.first;
    let settled = YesNo(h.settled);
    let state = Or(h.state, "none");
    let batchable = YesNo(h.batchable);
    write!(
        f,
        "disposition first={first} settled={settled} state={state} batchable={batchable}"
    )
}
