// Link credit.
use crate::word::{number, optional_number, truth};
use amqp::tag::DeliveryTag;
use amqp::text::{Or, YesNo};
use anyhow::Result;
use headers_text::show::Digits;
use link::flow::{LinkFlow, LinkFlowState};
use std::io::Write;

// The handle of the link.
const HANDLE: u32 = 7;

pub(crate) fn state(initial: &str, count: &str, credit: &str) -> Result<LinkFlowState> {
    Ok(LinkFlowState {
        initial_delivery_count: number(initial)?,
        delivery_count: number(count)?,
        link_credit: number(credit)?,
    })
}

pub(crate) fn flow<W: Write>(
    mut state: LinkFlowState,
    [count, credit, drain, echo]: [&str; 4],
    out: &mut W,
) -> Result<()> {
    let flow = LinkFlow {
        handle: None,
        delivery_count: optional_number(count)?,
        link_credit: optional_number(credit)?,
        available: None,
        drain: truth(drain)?,
        echo: truth(echo)?,
    };
    let answer = state.on_incoming_flow(&flow, Some(HANDLE));
    let (count, credit) = (state.delivery_count, state.link_credit);
    write!(out, "count={count} credit={credit} answer ")?;
    match answer {
        Some(flow) => write_flow(&flow, out),
        None => Ok(writeln!(out, "none")?),
    }
}

fn write_flow<W: Write>(flow: &LinkFlow, out: &mut W) -> Result<()> {
    let handle = Or(flow.handle, "none");
    let count = Or(flow.delivery_count, "none");
    let credit = Or(flow.link_credit, "none");
    let available = Or(flow.available, "none");
    let drain = YesNo(flow.drain);
    let echo = YesNo(flow.echo);
    writeln!(
        out,
        "handle={handle} count={count} credit={credit} available={available} drain={drain} echo={echo}"
    )?;
    Ok(())
}

// One delivery, and the tag that it has by the count before it.
pub(crate) fn consume<W: Write>(mut state: LinkFlowState, out: &mut W) -> Result<()> {
    let tag = Digits(DeliveryTag::from_count(state.delivery_count));
    state.consume();
    let (count, credit) = (state.delivery_count, state.link_credit);
    writeln!(out, "tag={tag} count={count} credit={credit}")?;
    Ok(())
}
