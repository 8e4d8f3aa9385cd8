// An entry of a table of unsettled deliveries.
use amqp::tag::DeliveryTag;

#[derive(Clone, Copy, Default)]
pub struct Slot<M> {
    pub tag: DeliveryTag,
    pub entry: M,
}

#[derive(Clone, Copy, PartialEq, Eq)]
pub enum MapError {
    // A new tag finds no place.
    Full,
}
