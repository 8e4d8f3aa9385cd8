// What is printed of values that have no text of their own.
ghost use Rattle.std.specs.Prelude.{Some};
ghost use Rattle.amqp.specs.Texts.{truth, or_word};

use std::fmt;

#[derive(Clone, Copy, PartialEq, Eq)]
pub struct YesNo(pub bool);

// A value, or a word where there is none.
#[derive(Clone, Copy)]
pub struct Or<T>(pub Option<T>, pub &'static str);

impl fmt::Display for YesNo {
    ghost output = { λ x. Some (truth x.0) };

    fn fmt<W: fmt::Write>(&self, f: &mut fmt::Formatter<W>) -> fmt::Result {
        f.write_str(if self.0 { "yes" } else { "no" })
    }
}

impl<T: fmt::Display> fmt::Display for Or<T> {
    ghost output = { λ x. or_word x.1.now T.output x.0 };

    fn fmt<W: fmt::Write>(&self, f: &mut fmt::Formatter<W>) -> fmt::Result {
        match &self.0 {
            Some(x) => write!(f, "{x}"),
            None => f.write_str(self.1),
        }
    }
}
