// The cases by their names.
use crate::{credit, decision, places, settings, states, table};
use anyhow::{Result, bail};
use std::alloc::Global;
use std::io::Write;

pub(crate) fn answer<W: Write>(words: &[&str], heap: Global, out: &mut W) -> Result<()> {
    match *words {
        ["search", message, section, offset] => {
            places::search(message, section, offset, heap, out)
        }
        ["places", message, sections, offsets] => {
            places::all(message, sections, offsets, heap, out)
        }
        ["codes", first, second] => places::codes(first, second, heap, out),
        ["resume", local, peer, message] => decision::resume(local, peer, message, heap, out),
        [
            "flow",
            initial,
            count,
            credit,
            told_count,
            told_credit,
            drain,
            echo,
        ] => {
            let state = credit::state(initial, count, credit)?;
            credit::flow(state, [told_count, told_credit, drain, echo], out)
        }
        ["consume", count, credit] => credit::consume(credit::state("0", count, credit)?, out),
        ["limit", own, peer] => settings::limit(own, peer, out),
        ["settles", mode, asked] => settings::settles(mode, asked, out),
        ["conflict", own, peer] => settings::conflict(own, peer, out),
        ["open", state, incomplete] => states::open(state, incomplete, out),
        ["attach", state, incomplete] => states::attach(state, incomplete, out),
        ["detach", state, closed] => states::detach(state, closed, out),
        ["map", ref steps @ ..] => table::map(steps, heap, out),
        ["show", reattaching, denominator, ref pairs @ ..] => {
            table::show(reattaching, denominator, pairs, heap, out)
        }
        _ => bail!("no such case"),
    }
}
