// The fields of lists, in any form (Part 1, 1.6).
#![tactic(auto, unfolding(crate::specs::Bodies::step))]

ghost use Rattle.std.specs.Prelude.{ℕ, Bool, max};
ghost use Rattle.codec.specs.Amqp.{Val, null, bool as boolean, uint, ulong};
ghost use Rattle.codec.specs.Values.{optional, flag, tag_value};
ghost use Rattle.codec.specs.Bodies.{Room, Took};

use crate::body::Body;
use crate::form::Form;
use crate::scratch::append;
use amqp::tag::DeliveryTag;

pub(crate) trait Field {
    // Its value in a form that is terse or not.
    ghost value: { Bool → Self → Val };

    // How many bytes it takes at most.
    ghost most: { ℕ };

    fn append_to<F: Form>(&self, body: &mut Body<F>)
        requires { Room most body.old }
        ensures { Took F.Form.form most (value F.Form.form.terse self.now) body.old body.new };
}

#[derive(Drop)]
pub(crate) struct Absent;

impl Field for Absent {
    ghost value = { λ _ _. null };

    ghost most = { 1 };

    fn append_to<F: Form>(&self, body: &mut Body<F>) {
        body.skip();
    }
}

impl<T: Field> Field for Option<T> {
    ghost value = { λ terse x. optional (T.Field.value terse) x };

    ghost most = { max 1 T.Field.most };

    fn append_to<F: Form>(&self, body: &mut Body<F>) {
        match self {
            None => Absent.append_to(body),
            Some(x) => x.append_to(body),
        }
    }
}

// Each type has its own method of a form: one impl for all would need a trait that picks it, and is no shorter.
impl Field for bool {
    ghost value = { λ _ x. boolean x };

    ghost most = { 2 };

    fn append_to<F: Form>(&self, body: &mut Body<F>) {
        body.begin();
        F::boolean(&mut body.bytes, *self);
    }
}

// A boolean that is false where it is absent.
#[derive(Drop)]
pub(crate) struct Flag(pub(crate) bool);

impl Field for Flag {
    ghost value = { λ terse f. flag terse f.0 };

    ghost most = { 2 };

    fn append_to<F: Form>(&self, body: &mut Body<F>) {
        if F::terse() && !self.0 {
            Absent.append_to(body);
        } else {
            self.0.append_to(body);
        }
    }
}

impl Field for u32 {
    ghost value = { λ _ x. uint x };

    ghost most = { 5 };

    fn append_to<F: Form>(&self, body: &mut Body<F>) {
        body.begin();
        F::uint(&mut body.bytes, *self);
    }
}

impl Field for u64 {
    ghost value = { λ _ x. ulong x };

    ghost most = { 9 };

    fn append_to<F: Form>(&self, body: &mut Body<F>) {
        body.begin();
        F::ulong(&mut body.bytes, *self);
    }
}

impl Field for DeliveryTag {
    ghost value = { λ _ t. tag_value t };

    ghost most = { 37 };

    fn append_to<F: Form>(&self, body: &mut Body<F>) {
        let bytes = self.as_slice();
        body.begin();
        F::binary(&mut body.bytes, bytes.len() as u8);
        append(&mut body.bytes, bytes);
    }
}
