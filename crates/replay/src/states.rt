// How a link moves between its states.
use crate::word::truth;
use anyhow::{Result, bail};
use link::state::LinkState;
use scenario_text::names::StateName;
use std::io::Write;

fn link_state(word: &str) -> Result<LinkState> {
    Ok(match word {
        "Unattached" => LinkState::Unattached,
        "AttachSent" => LinkState::AttachSent,
        "IncompleteAttachSent" => LinkState::IncompleteAttachSent,
        "AttachReceived" => LinkState::AttachReceived,
        "IncompleteAttachReceived" => LinkState::IncompleteAttachReceived,
        "Attached" => LinkState::Attached,
        "IncompleteAttachExchanged" => LinkState::IncompleteAttachExchanged,
        "Detached" => LinkState::Detached,
        "Closed" => LinkState::Closed,
        _ => bail!("no state of a link"),
    })
}

fn tell<W: Write>(state: Option<LinkState>, out: &mut W) -> Result<()> {
    match state {
        Some(state) => writeln!(out, "{}", StateName(state))?,
        None => writeln!(out, "refused 2")?,
    }
    Ok(())
}

pub(crate) fn open<W: Write>(state: &str, incomplete: &str, out: &mut W) -> Result<()> {
    tell(link_state(state)?.on_open(truth(incomplete)?), out)
}

pub(crate) fn attach<W: Write>(state: &str, incomplete: &str, out: &mut W) -> Result<()> {
    tell(
        link_state(state)?.on_incoming_attach(truth(incomplete)?),
        out,
    )
}

pub(crate) fn detach<W: Write>(state: &str, closed: &str, out: &mut W) -> Result<()> {
    tell(link_state(state)?.on_incoming_detach(truth(closed)?), out)
}
