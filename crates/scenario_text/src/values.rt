// What a command's words say, after its name.
ghost use Rattle.std.specs.Prelude.{codes};
ghost use Rattle.scenario_text.specs.Commands.{IsLink, IsSettings, IsAttach, IsFlow, IsSend, IsDisposition, IsDispose, IsShow, TakesAttach, link_words, settings_words, flow_words, send_words, disposition_words, dispose_words, detach_words, show_words};
ghost use Rattle.scenario_text.specs.Lists.{listed};
ghost use Rattle.scenario_text.specs.Reading.{Any};
ghost use Rattle.scenario_text.specs.Words.{left, Takes, TakesOrNoMemory};

use crate::command::{LinkSizes, PeerAttach};
use crate::fault::Fault;
use crate::peers::PeerList;
use crate::words::Words;
use amqp::condition::AmqpError;
use amqp::state::DeliveryState;
use amqp::tag::DeliveryTag;
use link::delivery::{Disposal, Sendable};
use link::flow::LinkFlow;
use link::settings::Settings;
use std::alloc::Global;
use unsettled::message::Place;

// The most places of a table, a list or a queue, and the most pairs that are shown.
pub(crate) const MAX_PLACES: usize = 100_000;

#[tactic(auto, unfolding(crate::specs::Commands::link_words))]
pub(crate) fn link_sizes(words: &mut Words<'_>) -> Result<LinkSizes, Fault>
    ensures { Takes link_words IsLink (left words.old) (left words.new) result }
{
    Ok(LinkSizes {
        table: words.size("table", MAX_PLACES)?,
        resume: words.size("resume", MAX_PLACES)?,
        resend: words.size("resend", MAX_PLACES)?,
        seats: words.size("seats", MAX_PLACES)?,
        settings: settings(words)?,
        initial_delivery_count: words.u32("count")?,
    })
}

#[tactic(auto, unfolding(crate::specs::Commands::settings_words))]
fn settings(words: &mut Words<'_>) -> Result<Settings, Fault>
    ensures { Takes settings_words IsSettings (left words.old) (left words.new) result }
{
    Ok(Settings {
        snd_settle_mode: words.sender_mode()?,
        rcv_settle_mode: words.receiver_mode()?,
        max_message_size: words.number("limit", u64::MAX)?,
        max_frame_size: words.u32("frame")? as usize,
    })
}

#[tactic(auto, unfolding(crate::specs::Commands::attach_words))]
pub(crate) fn attach_of(words: &mut Words<'_>, list: &mut PeerList) -> Result<PeerAttach, Fault>
    ensures { TakesAttach (left words.old) (left words.new) (listed list.new) result }
{
    let attach = PeerAttach {
        handle: words.u32("handle")?,
        incomplete_unsettled: words.truth("incomplete")?,
        rcv_settle_mode: words.receiver_mode()?,
        snd_settle_mode: words.sender_mode()?,
        has_target: words.truth("target")?,
        max_message_size: words.number("limit", u64::MAX)?,
    };
    list.read(words.value("unsettled")?)?;
    Ok(attach)
}

#[tactic(auto, unfolding(crate::specs::Commands::flow_words))]
pub(crate) fn link_flow(words: &mut Words<'_>) -> Result<LinkFlow, Fault>
    ensures { Takes flow_words IsFlow (left words.old) (left words.new) result }
{
    Ok(LinkFlow {
        handle: None,
        delivery_count: words.optional_u32("count")?,
        link_credit: words.optional_u32("credit")?,
        available: None,
        drain: words.truth("drain")?,
        echo: words.truth("echo")?,
    })
}

#[tactic(auto, unfolding(crate::specs::Commands::send_words))]
pub(crate) fn sendable(words: &mut Words<'_>) -> Result<Sendable, Fault>
    ensures { Takes send_words IsSend (left words.old) (left words.new) result }
{
    Ok(Sendable {
        place: Place {
            start: words.size("start", usize::MAX)?,
            len: words.size("length", usize::MAX)?,
        },
        message_format: words.u32("format")?,
        settled: words.optional_truth("settled")?,
        state: words.optional_state("state")?,
        batchable: words.truth("batchable")?,
    })
}

#[tactic(auto, unfolding(crate::specs::Commands::disposition_words))]
pub(crate) fn disposition_of(
    words: &mut Words<'_>,
    heap: Global,
) -> Result<(DeliveryTag, bool, Option<DeliveryState>), Fault>
    ensures { TakesOrNoMemory disposition_words IsDisposition (left words.old) (left words.new) result }
{
    Ok((
        words.tag("tag", heap)?,
        words.truth("settled")?,
        words.optional_state("state")?,
    ))
}

#[tactic(auto, unfolding(crate::specs::Commands::dispose_words))]
pub(crate) fn disposal(words: &mut Words<'_>, heap: Global) -> Result<Disposal, Fault>
    ensures { TakesOrNoMemory dispose_words IsDispose (left words.old) (left words.new) result }
{
    Ok(Disposal {
        delivery_id: words.u32("id")?,
        delivery_tag: words.tag("tag", heap)?,
        settled: words.truth("settled")?,
        state: words.state("state")?,
        batchable: words.truth("batchable")?,
    })
}

#[tactic(auto, unfolding(crate::specs::Commands::detach_words))]
pub(crate) fn detach_of(words: &mut Words<'_>) -> Result<(bool, Option<AmqpError>), Fault>
    ensures { Takes detach_words Any (left words.old) (left words.new) result }
{
    Ok((words.truth("closed")?, words.condition("condition")?))
}

// Whether the link reattaches, the denominator, and the room.
#[tactic(auto, unfolding(crate::specs::Commands::show_words))]
pub(crate) fn show_of(words: &mut Words<'_>) -> Result<(bool, usize, usize), Fault>
    ensures { Takes show_words IsShow (left words.old) (left words.new) result }
{
    Ok((
        words.truth("reattaching")?,
        words.size("denominator", usize::MAX)?,
        words.size("room", MAX_PLACES)?,
    ))
}
