// Delivery tags as they are read.
ghost use Rattle.std.specs.Prelude.{◌≡◌, ◌≤◌, length};
ghost use Rattle.amqp.specs.Tags.{tag_from};
ghost use Rattle.reader.specs.States.{tag_at};

use crate::field::Item;
use crate::input::Input;
use crate::parse::Parse;
use amqp::tag::DeliveryTag;
use codec::error::ReadError;

fn of_bytes(bytes: &[u8]) -> DeliveryTag
    requires { length bytes.now ≤ 32 }
    ensures { result ≡ tag_from bytes.now }
{
    DeliveryTag::from_slice(bytes).unwrap()
}

impl Item for DeliveryTag {
    ghost reader = { tag_at };

    fn read<P: Parse>(input: &mut Input<'_>) -> Result<DeliveryTag, ReadError> {
        Ok(of_bytes(P::binary(input, 32)?))
    }
}
