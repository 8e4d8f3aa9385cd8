// A command's words by their keys.
ghost use Rattle.std.specs.Prelude.{◌≡◌, ℕ, length, MatchOption, ◌≤◌, ◌<◌, ◌^◌, codes, decimal, [], ◌∷◌};
ghost use Rattle.scenario_text.specs.Reading.{Any};
ghost use Rattle.amqp.specs.Tags.{tag_bytes};
ghost use Rattle.scenario_text.specs.Commands.{IsTag, byte_text};
ghost use Rattle.scenario_text.specs.Shown.{truth_word, truth_or_none, number_or_none, condition_word, sender_word, receiver_word, state_word, state_or_none, tag_word, reason_word};
ghost use Rattle.scenario_text.specs.Values.{IsState, IfThere};

use crate::bytes::read_bytes;
use crate::condition::read_condition;
use crate::fault::Fault;
use crate::mode::{read_receiver_mode, read_sender_mode};
use crate::number::{read_number, read_optional_u32, read_u32};
use crate::reason::read_session_reason;
use crate::state::{read_optional_state, read_state};
use crate::truth::{read_optional_truth, read_truth};
use crate::words::Words;
use amqp::condition::AmqpError;
use amqp::mode::{ReceiverSettleMode, SenderSettleMode};
use amqp::state::DeliveryState;
use amqp::stop::SessionStopReason;
use amqp::tag::DeliveryTag;
use std::alloc::Global;

impl Words<'_> {
    ghost use Rattle.scenario_text.specs.Words.{left, field, Takes, TakesOrNoMemory};

    pub(crate) fn number(&mut self, key: &'static str, most: u64) -> Result<u64, Fault>
        ensures { Takes (field key.now decimal) (λ n. n ≤ most) (left self.old) (left self.new) result }
    {
        read_number(self.value(key)?, most).ok_or(Fault::NotInRange(key))
    }

    pub(crate) fn u32(&mut self, key: &'static str) -> Result<u32, Fault>
        ensures { Takes (field key.now decimal) (λ n. n < 2 ^ 32) (left self.old) (left self.new) result }
    {
        read_u32(self.value(key)?).ok_or(Fault::NotInRange(key))
    }

    pub(crate) fn size(&mut self, key: &'static str, most: usize) -> Result<usize, Fault>
        ensures { Takes (field key.now decimal) (λ n. n ≤ most) (left self.old) (left self.new) result }
    {
        Ok(self.number(key, most as u64)? as usize)
    }

    pub(crate) fn optional_u32(&mut self, key: &'static str) -> Result<Option<u32>, Fault>
        ensures { Takes (field key.now number_or_none) (IfThere (λ n. n < 2 ^ 32)) (left self.old) (left self.new) result }
    {
        read_optional_u32(self.value(key)?).ok_or(Fault::NotInRange(key))
    }

    pub(crate) fn truth(&mut self, key: &'static str) -> Result<bool, Fault>
        ensures { Takes (field key.now truth_word) Any (left self.old) (left self.new) result }
    {
        read_truth(self.value(key)?).ok_or(Fault::UnknownWord(key))
    }

    pub(crate) fn optional_truth(&mut self, key: &'static str) -> Result<Option<bool>, Fault>
        ensures { Takes (field key.now truth_or_none) Any (left self.old) (left self.new) result }
    {
        read_optional_truth(self.value(key)?).ok_or(Fault::UnknownWord(key))
    }

    pub(crate) fn state(&mut self, key: &'static str) -> Result<DeliveryState, Fault>
        ensures { Takes (field key.now state_word) IsState (left self.old) (left self.new) result }
    {
        read_state(self.value(key)?).ok_or(Fault::UnknownWord(key))
    }

    pub(crate) fn optional_state(
        &mut self,
        key: &'static str,
    ) -> Result<Option<DeliveryState>, Fault>
        ensures { Takes (field key.now state_or_none) (IfThere IsState) (left self.old) (left self.new) result }
    {
        read_optional_state(self.value(key)?).ok_or(Fault::UnknownWord(key))
    }

    pub(crate) fn condition(&mut self, key: &'static str) -> Result<Option<AmqpError>, Fault>
        ensures { Takes (field key.now condition_word) Any (left self.old) (left self.new) result }
    {
        read_condition(self.value(key)?).ok_or(Fault::NotInRange(key))
    }

    pub(crate) fn sender_mode(&mut self) -> Result<SenderSettleMode, Fault>
        ensures { Takes (field (codes "sender") sender_word) Any (left self.old) (left self.new) result }
    {
        read_sender_mode(self.value("sender")?).ok_or(Fault::UnknownWord("sender"))
    }

    pub(crate) fn receiver_mode(&mut self) -> Result<ReceiverSettleMode, Fault>
        ensures { Takes (field (codes "receiver") receiver_word) Any (left self.old) (left self.new) result }
    {
        read_receiver_mode(self.value("receiver")?).ok_or(Fault::UnknownWord("receiver"))
    }

    // A ticket's number, which has no key.
    pub(crate) fn ticket(&mut self, what: &'static str) -> Result<u32, Fault>
        ensures { Takes (λ n. decimal n ∷ []) (λ n. n < 2 ^ 32) (left self.old) (left self.new) result }
    {
        read_u32(self.word(what)?).ok_or(Fault::NotInRange(what))
    }

    // A reason, which has no key.
    pub(crate) fn reason(&mut self, what: &'static str) -> Result<SessionStopReason, Fault>
        ensures { Takes (λ r. reason_word r ∷ []) Any (left self.old) (left self.new) result }
    {
        read_session_reason(self.word(what)?).ok_or(Fault::UnknownWord(what))
    }

    // One byte, as two digits.
    pub(crate) fn byte(&mut self, key: &'static str, heap: Global) -> Result<u8, Fault>
        ensures { TakesOrNoMemory (field key.now byte_text) (λ b. b < 256) (left self.old) (left self.new) result }
    {
        match read_bytes(self.value(key)?, heap) {
            Ok(bytes) => one_of(bytes.as_slice()).ok_or(Fault::UnknownWord(key)),
            Err(fault) => Err(Fault::of_digits(key, fault)),
        }
    }

    // A tag of a delivery that we may have, which is at most 32 bytes (Part 2, 2.8.7).
    pub(crate) fn tag(&mut self, key: &'static str, heap: Global) -> Result<DeliveryTag, Fault>
        ensures { TakesOrNoMemory (field key.now tag_word) IsTag (left self.old) (left self.new) result }
    {
        match read_bytes(self.value(key)?, heap) {
            Ok(bytes) => tag_of(bytes.as_slice()).ok_or(Fault::TooLong(key)),
            Err(fault) => Err(Fault::of_digits(key, fault)),
        }
    }
}

fn tag_of(bytes: &[u8]) -> Option<DeliveryTag>
    ensures { MatchOption result (32 < length bytes.now) (λ t. IsTag t × (tag_bytes t ≡ bytes.now)) }
{
    DeliveryTag::from_slice(bytes)
}

fn one_of(bytes: &[u8]) -> Option<u8>
    ensures { MatchOption result ((b : ℕ) → bytes.now ≡ b ∷ [] → ⊥) (λ b. (b < 256) × (bytes.now ≡ b ∷ [])) }
{
    match bytes {
        [byte] => Some(*byte),
        _ => None,
    }
}
