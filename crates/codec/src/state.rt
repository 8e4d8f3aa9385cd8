// Delivery states and errors as fields: described lists of their own (Part 3, 3.4; Part 2, 2.8.14).
#![tactic(auto, unfolding(crate::specs::Bodies::step))]

ghost use Rattle.std.specs.Prelude.{◌≡◌, []};
ghost use Rattle.amqp.specs.declared.state.DeliveryState.TheVariants as state;
ghost use Rattle.codec.specs.Amqp.{symbol};
ghost use Rattle.codec.specs.Values.{condition_name, error_value, state_value};
ghost use Rattle.codec.specs.Bodies.{Encodes};

use crate::body::Body;
use crate::descriptor::Descriptor;
use crate::field::{Absent, Field};
use crate::form::Form;
use crate::name::condition_name;
use crate::scratch::{Scratch, append};
use amqp::condition::AmqpError;
use amqp::state::{DeliveryState, Received};

// The name of a condition as a field.
#[derive(Drop)]
struct Condition(AmqpError);

impl Field for Condition {
    ghost value = { λ _ n. symbol (condition_name n.0) };

    ghost most = { 33 };

    fn append_to<F: Form>(&self, body: &mut Body<F>) {
        let name = condition_name(self.0);
        body.begin();
        F::symbol(&mut body.bytes, name.len() as u8);
        append(&mut body.bytes, name);
    }
}

fn described_error<F: Form>(condition: AmqpError, list: &mut Scratch)
    requires { list.old.items ≡ [] }
    ensures { Encodes F.Form.form 54 (error_value condition) list.new }
{
    let mut body = Body::<F>::new();
    Condition(condition).append_to(&mut body);
    Absent.append_to(&mut body);
    Absent.append_to(&mut body);
    body.close(Descriptor::Error, list);
}

// The lines that append it stand below for a state again: a function for them would be longer.
impl Field for AmqpError {
    ghost value = { λ _ k. error_value k };

    ghost most = { 54 };

    fn append_to<F: Form>(&self, body: &mut Body<F>) {
        let mut list = Scratch::new();
        described_error::<F>(*self, &mut list);
        body.begin();
        append(&mut body.bytes, list.as_slice());
    }
}

fn received<F: Form>(at: Received, list: &mut Scratch)
    requires { list.old.items ≡ [] }
    ensures { Encodes F.Form.form 33 (state_value (state.Received at)) list.new }
{
    let mut body = Body::<F>::new();
    at.section_number.append_to(&mut body);
    at.section_offset.append_to(&mut body);
    body.close(Descriptor::Received, list);
}

fn rejected<F: Form>(error: Option<AmqpError>, list: &mut Scratch)
    requires { list.old.items ≡ [] }
    ensures { Encodes F.Form.form 73 (state_value (state.Rejected error)) list.new }
{
    let mut body = Body::<F>::new();
    error.append_to(&mut body);
    body.close(Descriptor::Rejected, list);
}

fn modified<F: Form>(failed: Option<bool>, undeliverable: Option<bool>, list: &mut Scratch)
    requires { list.old.items ≡ [] }
    ensures { Encodes F.Form.form 24 (state_value (state.Modified failed undeliverable)) list.new }
{
    let mut body = Body::<F>::new();
    failed.append_to(&mut body);
    undeliverable.append_to(&mut body);
    Absent.append_to(&mut body);
    body.close(Descriptor::Modified, list);
}

fn described_state<F: Form>(state: DeliveryState, list: &mut Scratch)
    requires { list.old.items ≡ [] }
    ensures { Encodes F.Form.form 73 (state_value state) list.new }
{
    match state {
        DeliveryState::Received(at) => received::<F>(at, list),
        DeliveryState::Accepted => Body::<F>::new().close(Descriptor::Accepted, list),
        DeliveryState::Rejected(error) => rejected::<F>(error, list),
        DeliveryState::Released => Body::<F>::new().close(Descriptor::Released, list),
        DeliveryState::Modified {
            delivery_failed,
            undeliverable_here,
        } => modified::<F>(delivery_failed, undeliverable_here, list),
    }
}

impl Field for DeliveryState {
    ghost value = { λ _ s. state_value s };

    ghost most = { 73 };

    fn append_to<F: Form>(&self, body: &mut Body<F>) {
        let mut list = Scratch::new();
        described_state::<F>(*self, &mut list);
        body.begin();
        append(&mut body.bytes, list.as_slice());
    }
}
