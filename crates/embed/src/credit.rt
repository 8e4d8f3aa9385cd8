// Link credit after a flow of the peer's.
ghost use Rattle.std.specs.Prelude.{◌≡◌};
ghost use Rattle.embed.specs.Credits.{flow_of, credit_of, credited, is_answered};

use link::flow::{LinkFlow, LinkFlowState};

// How many deliveries went out, and how many more the peer takes.
#[repr(C)]
#[derive(Clone, Copy)]
pub struct CCredit {
    pub initial_delivery_count: u32,
    pub delivery_count: u32,
    pub link_credit: u32,
}

// A flow: what may be absent counts where its `has_` is not 0, and a truth value is no for 0.
#[repr(C)]
#[derive(Clone, Copy)]
pub struct CFlow {
    pub delivery_count: u32,
    pub link_credit: u32,
    pub has_delivery_count: u8,
    pub has_link_credit: u8,
    pub drain: u8,
    pub echo: u8,
}

fn flow_of(flow: &CFlow) -> LinkFlow
    ensures { result ≡ flow_of flow.now }
{
    LinkFlow {
        handle: None,
        delivery_count: (flow.has_delivery_count != 0).then_some(flow.delivery_count),
        link_credit: (flow.has_link_credit != 0).then_some(flow.link_credit),
        available: None,
        drain: flow.drain != 0,
        echo: flow.echo != 0,
    }
}

fn credit_of(credit: &CCredit) -> LinkFlowState
    ensures { result ≡ credit_of credit.now }
{
    LinkFlowState {
        initial_delivery_count: credit.initial_delivery_count,
        delivery_count: credit.delivery_count,
        link_credit: credit.link_credit,
    }
}

// Takes the flow in, and answers whether the peer is to be told count and credit as they stand then.
#[unsafe(no_mangle)]
pub extern "C" fn dabberblue_flow(credit: &mut CCredit, flow: &CFlow) -> bool
    ensures after { credit.new ≡ credited flow.now credit.old }
    ensures answer { result ≡ is_answered flow.now }
{
    let mut state = credit_of(credit);
    let answer = state.on_incoming_flow(&flow_of(flow), None);
    *credit = CCredit {
        initial_delivery_count: state.initial_delivery_count,
        delivery_count: state.delivery_count,
        link_credit: state.link_credit,
    };
    answer.is_some()
}
