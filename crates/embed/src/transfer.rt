// A transfer as C has it.
ghost use Rattle.std.specs.Prelude.{◌≡◌};
ghost use Rattle.embed.specs.Transfers.{tag_in, transfer_of, c_tag, c_transfer};

use crate::fields::{mark_number, mark_of};
use crate::state::{CState, c_state, state_of};
use amqp::header::Transfer;
use amqp::tag::DeliveryTag;

// What is a truth value here is no for 0 and else yes; a field that may be absent counts only where its `has_` is yes.
#[repr(C)]
#[derive(Clone, Copy)]
pub struct CTransfer {
    pub handle: u32,
    pub delivery_id: u32,
    pub message_format: u32,
    pub has_delivery_id: u8,
    pub has_tag: u8,
    pub has_message_format: u8,
    // 0 absent, 1 no, 2 yes.
    pub settled: u8,
    pub more: u8,
    pub resume: u8,
    pub aborted: u8,
    pub batchable: u8,
    pub tag_len: u8,
    pub tag: [u8; 32],
    pub state: CState,
}

// The tag, if one is there and is no longer than a tag may be, or none.
fn tag_in(transfer: &CTransfer) -> Option<Option<DeliveryTag>>
    ensures { result ≡ tag_in transfer.now }
{
    if transfer.has_tag == 0 {
        return Some(None);
    }
    let bytes = transfer.tag.get(..usize::from(transfer.tag_len))?;
    Some(Some(DeliveryTag::from_slice(bytes)?))
}

// The transfer, if the fields hold one.
pub(crate) fn transfer_of(transfer: &CTransfer) -> Option<Transfer>
    ensures { result ≡ transfer_of transfer.now }
{
    Some(Transfer {
        handle: transfer.handle,
        delivery_id: (transfer.has_delivery_id != 0).then_some(transfer.delivery_id),
        delivery_tag: tag_in(transfer)?,
        message_format: (transfer.has_message_format != 0).then_some(transfer.message_format),
        settled: mark_of(transfer.settled)?,
        more: transfer.more != 0,
        state: state_of(&transfer.state)?,
        resume: transfer.resume != 0,
        aborted: transfer.aborted != 0,
        batchable: transfer.batchable != 0,
    })
}

// A tag's bytes, with zeros past them.
fn c_tag(tag: Option<DeliveryTag>) -> [u8; 32]
    ensures { result ≡ c_tag tag }
{
    let mut bytes = [0; 32];
    if let Some(tag) = tag {
        bytes[..tag.len()].copy_from_slice(tag.as_slice());
    }
    bytes
}

pub(crate) fn c_transfer(transfer: &Transfer) -> CTransfer
    ensures { result ≡ c_transfer transfer.now }
{
    CTransfer {
        handle: transfer.handle,
        delivery_id: transfer.delivery_id.unwrap_or(0),
        message_format: transfer.message_format.unwrap_or(0),
        has_delivery_id: u8::from(transfer.delivery_id.is_some()),
        has_tag: u8::from(transfer.delivery_tag.is_some()),
        has_message_format: u8::from(transfer.message_format.is_some()),
        settled: mark_number(transfer.settled),
        more: u8::from(transfer.more),
        resume: u8::from(transfer.resume),
        aborted: u8::from(transfer.aborted),
        batchable: u8::from(transfer.batchable),
        tag_len: transfer.delivery_tag.map_or(0, |tag| tag.len() as u8),
        tag: c_tag(transfer.delivery_tag),
        state: c_state(transfer.state),
    }
}
