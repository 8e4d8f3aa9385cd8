// What all of the work has in common.
ghost use Rattle.std.specs.Prelude.{◌≡◌, None, Some, false};

use link::flow::LinkFlow;

// The longest frame where its length does not matter.
pub(crate) const FRAME: usize = 512;

// So much credit that none of the work uses it up.
pub(crate) fn credit(delivery_count: u32) -> LinkFlow
    ensures { result ≡ record { handle = None; delivery_count = Some delivery_count; link_credit = Some 4294967295; available = None; drain = false; echo = false } }
{
    LinkFlow {
        handle: None,
        delivery_count: Some(delivery_count),
        link_credit: Some(u32::MAX),
        available: None,
        drain: false,
        echo: false,
    }
}
