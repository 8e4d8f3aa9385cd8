// What both ends agree on.
use crate::word::{long_number, optional_truth};
use amqp::mode::{ReceiverSettleMode, SenderSettleMode};
use amqp::text::YesNo;
use anyhow::{Context, Result};
use link::settings::Settings;
use scenario_text::mode::read_sender_mode;
use std::io::Write;

fn settings(snd_settle_mode: SenderSettleMode, max_message_size: u64) -> Settings {
    Settings {
        snd_settle_mode,
        rcv_settle_mode: ReceiverSettleMode::First,
        max_message_size,
        max_frame_size: 512,
    }
}

fn mode(word: &str) -> Result<SenderSettleMode> {
    read_sender_mode(word).context("no mode")
}

// No limit of the peer's is a limit of 0.
pub(crate) fn limit<W: Write>(own: &str, peer: &str, out: &mut W) -> Result<()> {
    let mut settings = settings(SenderSettleMode::Mixed, long_number(own)?);
    settings.limit_by(if peer == "none" {
        0
    } else {
        long_number(peer)?
    });
    writeln!(out, "{}", settings.max_message_size)?;
    Ok(())
}

pub(crate) fn settles<W: Write>(own: &str, asked: &str, out: &mut W) -> Result<()> {
    let settled = settings(mode(own)?, 0).is_settled_on_send(optional_truth(asked)?);
    writeln!(out, "{}", YesNo(settled))?;
    Ok(())
}

pub(crate) fn conflict<W: Write>(own: &str, peer: &str, out: &mut W) -> Result<()> {
    let conflicts = settings(mode(own)?, 0).conflicts_with(mode(peer)?);
    writeln!(out, "{}", YesNo(conflicts))?;
    Ok(())
}
