// Link credit (Part 2, 2.6.7).
ghost use Rattle.std.specs.Prelude.{◌≡◌};
ghost use Rattle.link.specs.Credit.{uncredited, consumed, flowed, told_in, flow_answer};

// What a flow says of a link, either way.
#[derive(Clone, Copy)]
pub struct LinkFlow {
    pub handle: Option<u32>,
    pub delivery_count: Option<u32>,
    pub link_credit: Option<u32>,
    pub available: Option<u32>,
    pub drain: bool,
    pub echo: bool,
}

// How many deliveries went out, and how many more the peer will take.
#[derive(Clone, Copy)]
pub struct LinkFlowState {
    pub initial_delivery_count: u32,
    pub delivery_count: u32,
    pub link_credit: u32,
}

impl LinkFlowState {
    pub fn new(initial_delivery_count: u32) -> LinkFlowState
        ensures { result ≡ uncredited initial_delivery_count }
    {
        LinkFlowState {
            initial_delivery_count,
            delivery_count: initial_delivery_count,
            link_credit: 0,
        }
    }

    // One delivery takes one credit.
    pub fn consume(&mut self)
        ensures { self.new ≡ consumed self.old }
    {
        self.delivery_count = self.delivery_count.wrapping_add(1);
        self.link_credit = self.link_credit.saturating_sub(1);
    }

    // The peer's flow: its credit counts from the deliveries that it has seen. A drain uses up what is left.
    pub fn on_incoming_flow(&mut self, flow: &LinkFlow, handle: Option<u32>) -> Option<LinkFlow>
        ensures after { self.new ≡ flowed flow.now self.old }
        ensures answer { result ≡ flow_answer flow.now handle self.new }
    {
        if let Some(credit) = flow.link_credit {
            let count = flow.delivery_count.unwrap_or(self.initial_delivery_count);
            self.link_credit = count
                .saturating_add(credit)
                .saturating_sub(self.delivery_count);
        }
        if flow.drain {
            self.delivery_count = self.delivery_count.wrapping_add(self.link_credit);
            self.link_credit = 0;
        }
        (flow.drain || flow.echo).then(|| self.as_link_flow(handle, flow.drain))
    }

    // Our own flow, which asks for no answer.
    fn as_link_flow(&self, handle: Option<u32>, drain: bool) -> LinkFlow
        ensures { result ≡ told_in handle drain self.now }
    {
        LinkFlow {
            handle,
            delivery_count: Some(self.delivery_count),
            link_credit: Some(self.link_credit),
            available: Some(0),
            drain,
            echo: false,
        }
    }
}
