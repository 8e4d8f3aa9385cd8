// Settlement modes.
ghost use Rattle.scenario_text.specs.Reading.{Reads, Any};
ghost use Rattle.scenario_text.specs.Values.{sender_text, receiver_text};

use amqp::mode::{ReceiverSettleMode, SenderSettleMode};

pub fn read_sender_mode(text: &str) -> Option<SenderSettleMode>
    ensures { Reads sender_text Any text.now result }
{
    match text {
        "unsettled" => Some(SenderSettleMode::Unsettled),
        "settled" => Some(SenderSettleMode::Settled),
        "mixed" => Some(SenderSettleMode::Mixed),
        _ => None,
    }
}

pub fn read_receiver_mode(text: &str) -> Option<ReceiverSettleMode>
    ensures { Reads receiver_text Any text.now result }
{
    match text {
        "first" => Some(ReceiverSettleMode::First),
        "second" => Some(ReceiverSettleMode::Second),
        _ => None,
    }
}
