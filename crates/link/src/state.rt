// The states of a link.
//
//                      open                          attach (peer's map complete)
//   Unattached ──────────────────────► AttachSent ─────────────────────► Attached
//   Detached   ╲  ╲                       │ attach, incomplete              ▲
//      ▲        ╲  ╲ open, incomplete     ▼                                 │
//      │         ╲  ╰► IncompleteAttachSent ──► IncompleteAttachExchanged   │
//      │          ╲                attach               ▲                   │
//      │           ╲ attach                        open │                   │ open
//      │            ├───────► IncompleteAttachReceived ─╯                   │
//      │            │ incomplete                                            │
//      │            ╰───────► AttachReceived ───────────────────────────────╯
//      │ detach
//   every state but Unattached, Detached and Closed; a closing detach leads to Closed
ghost use Rattle.std.specs.Prelude.{◌≡◌};
ghost use Rattle.link.specs.States.{after_open, after_attach, after_detach, is_incomplete, may_work};

#[derive(Clone, Copy, PartialEq, Eq)]
pub enum LinkState {
    Unattached,
    AttachSent,
    // Our attach has been sent, with a map of unsettled deliveries that is not complete.
    IncompleteAttachSent,
    AttachReceived,
    IncompleteAttachReceived,
    Attached,
    // Both ends have attached, and at least one map is not complete: no new delivery goes out (Part 2, 2.7.3).
    IncompleteAttachExchanged,
    Detached,
    Closed,
}

impl LinkState {
    // After our attach, or none where it may not be sent.
    pub fn on_open(self, incomplete_unsettled: bool) -> Option<LinkState>
        ensures { result ≡ after_open self incomplete_unsettled }
    {
        match (self, incomplete_unsettled) {
            (LinkState::Unattached, false) | (LinkState::Detached, false) => {
                Some(LinkState::AttachSent)
            }
            (LinkState::Unattached, true) | (LinkState::Detached, true) => {
                Some(LinkState::IncompleteAttachSent)
            }
            (LinkState::AttachReceived, _) => Some(LinkState::Attached),
            (LinkState::IncompleteAttachReceived, _) => Some(LinkState::IncompleteAttachExchanged),
            _ => None,
        }
    }

    // After the peer's attach, or none where it may not come.
    pub fn on_incoming_attach(self, incomplete_unsettled: bool) -> Option<LinkState>
        ensures { result ≡ after_attach self incomplete_unsettled }
    {
        match (self, incomplete_unsettled) {
            (LinkState::AttachSent, false) => Some(LinkState::Attached),
            (LinkState::AttachSent, true) | (LinkState::IncompleteAttachSent, _) => {
                Some(LinkState::IncompleteAttachExchanged)
            }
            (LinkState::Unattached, false) | (LinkState::Detached, false) => {
                Some(LinkState::AttachReceived)
            }
            (LinkState::Unattached, true) | (LinkState::Detached, true) => {
                Some(LinkState::IncompleteAttachReceived)
            }
            _ => None,
        }
    }

    // After the peer's detach, or none where it may not come.
    pub fn on_incoming_detach(self, closed: bool) -> Option<LinkState>
        ensures { result ≡ after_detach self closed }
    {
        match (self, closed) {
            (LinkState::Unattached | LinkState::Detached | LinkState::Closed, _) => None,
            (_, true) => Some(LinkState::Closed),
            (_, false) => Some(LinkState::Detached),
        }
    }

    // Deliveries that came back may go out.
    pub fn may_work(self) -> bool
        ensures { result ≡ may_work self }
    {
        matches!(
            self,
            LinkState::Attached | LinkState::IncompleteAttachExchanged
        )
    }

    // One end's map of unsettled deliveries is not complete.
    pub fn is_incomplete(self) -> bool
        ensures { result ≡ is_incomplete self }
    {
        matches!(
            self,
            LinkState::IncompleteAttachSent
                | LinkState::IncompleteAttachReceived
                | LinkState::IncompleteAttachExchanged
        )
    }
}
