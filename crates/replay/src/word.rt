// What the words of a case stand for.
use amqp::state::DeliveryState;
use amqp::tag::DeliveryTag;
use anyhow::{Context, Result};
use scenario_text::bytes::read_bytes;
use scenario_text::number::{read_number, read_u32};
use scenario_text::state::read_state;
use scenario_text::truth::read_truth;
use std::alloc::Global;

pub(crate) fn number(word: &str) -> Result<u32> {
    read_u32(word).context("a number is wrong")
}

pub(crate) fn long_number(word: &str) -> Result<u64> {
    read_number(word, u64::MAX).context("a number is wrong")
}

pub(crate) fn truth(word: &str) -> Result<bool> {
    read_truth(word).context("neither yes nor no")
}

pub(crate) fn optional_number(word: &str) -> Result<Option<u32>> {
    if word == "none" {
        return Ok(None);
    }
    Ok(Some(number(word)?))
}

pub(crate) fn optional_truth(word: &str) -> Result<Option<bool>> {
    if word == "none" {
        return Ok(None);
    }
    Ok(Some(truth(word)?))
}

pub(crate) fn optional_state(word: &str) -> Result<Option<DeliveryState>> {
    if word == "none" {
        return Ok(None);
    }
    Ok(Some(read_state(word).context("no state")?))
}

pub(crate) fn bytes(word: &str, heap: Global) -> Result<Vec<u8>> {
    read_bytes(word, heap).ok().context("no pairs of digits")
}

pub(crate) fn tag(word: &str, heap: Global) -> Result<DeliveryTag> {
    DeliveryTag::from_slice(bytes(word, heap)?.as_slice()).context("a tag is too long")
}

// `TAG=STATE`.
pub(crate) fn pair(word: &str, heap: Global) -> Result<(DeliveryTag, Option<DeliveryState>)> {
    let (key, state) = word.split_once('=').context("no pair")?;
    Ok((tag(key, heap)?, optional_state(state)?))
}
