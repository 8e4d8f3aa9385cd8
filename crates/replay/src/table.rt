// The table of unsettled deliveries, and what is shown of it.
use crate::word::{long_number, pair, tag, truth};
use amqp::state::DeliveryState;
use amqp::text::Or;
use anyhow::{Result, bail, ensure};
use headers_text::show::Digits;
use std::alloc::Global;
use std::io::Write;
use unsettled::map::UnsettledMap;
use unsettled::slot::Slot;

type State = Option<DeliveryState>;

// Memory for a table of so many entries.
fn memory(len: usize, heap: Global) -> Result<Vec<Slot<State>>> {
    Ok((0..len).map(|_| Slot::default()).collect(heap)?)
}

fn write_slots<W: Write>(slots: &[Slot<State>], out: &mut W) -> Result<()> {
    for slot in slots {
        write!(out, " {}={}", Digits(slot.tag), Or(slot.entry, "none"))?;
    }
    writeln!(out)?;
    Ok(())
}

fn put(map: &mut UnsettledMap<'_, State>, word: &str, heap: Global) -> Result<()> {
    let (tag, state) = pair(word, heap)?;
    ensure!(map.put(tag, state).is_ok(), "the table is full");
    Ok(())
}

fn write_found<W: Write>(found: Option<State>, out: &mut W) -> Result<()> {
    match found {
        Some(state) => write!(out, "{} ", Or(state, "none"))?,
        None => write!(out, "absent ")?,
    }
    Ok(())
}

// `+TAG=STATE` puts, `-TAG` takes out and `?TAG` looks.
fn step<W: Write>(
    map: &mut UnsettledMap<'_, State>,
    step: &str,
    heap: Global,
    out: &mut W,
) -> Result<()> {
    if let Some(word) = step.strip_prefix('+') {
        put(map, word, heap)
    } else if let Some(word) = step.strip_prefix('-') {
        write_found(map.swap_remove(&tag(word, heap)?), out)
    } else if let Some(word) = step.strip_prefix('?') {
        write_found(map.get(&tag(word, heap)?), out)
    } else {
        bail!("no step of a table")
    }
}

pub(crate) fn map<W: Write>(steps: &[&str], heap: Global, out: &mut W) -> Result<()> {
    let mut slots = memory(steps.len(), heap)?;
    let mut map = UnsettledMap::new(&mut slots);
    for word in steps {
        step(&mut map, word, heap, out)?;
    }
    write!(out, "holds")?;
    write_slots(map.front(), out)
}

pub(crate) fn show<W: Write>(
    reattaching: &str,
    denominator: &str,
    pairs: &[&str],
    heap: Global,
    out: &mut W,
) -> Result<()> {
    let mut slots = memory(pairs.len(), heap)?;
    let mut shown = memory(pairs.len(), heap)?;
    let mut map = UnsettledMap::new(&mut slots);
    for word in pairs {
        put(&mut map, word, heap)?;
    }
    let denominator = long_number(denominator)? as usize;
    match map.get_unsettled_map(truth(reattaching)?, denominator, &mut shown) {
        Ok(Some(count)) => {
            write!(out, "{count}")?;
            write_slots(shown.get(..count).unwrap_or_default(), out)
        }
        Ok(None) => Ok(writeln!(out, "none")?),
        Err(_) => bail!("the memory is too short"),
    }
}
