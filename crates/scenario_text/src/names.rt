// The names that are printed of what a call came to.
ghost use Rattle.std.specs.Prelude.{Some};
ghost use Rattle.scenario_text.specs.Names.{state_name, exchange_name, progress_name};

use link::attach::SenderAttachExchange;
use link::resumption::Progress;
use link::state::LinkState;
use std::fmt;

#[derive(Clone, Copy)]
pub struct StateName(pub LinkState);

impl fmt::Display for StateName {
    ghost output = { λ n. Some (state_name n.0) };

    fn fmt<W: fmt::Write>(&self, f: &mut fmt::Formatter<W>) -> fmt::Result {
        f.write_str(match self.0 {
            LinkState::Unattached => "Unattached",
            LinkState::AttachSent => "AttachSent",
            LinkState::IncompleteAttachSent => "IncompleteAttachSent",
            LinkState::AttachReceived => "AttachReceived",
            LinkState::IncompleteAttachReceived => "IncompleteAttachReceived",
            LinkState::Attached => "Attached",
            LinkState::IncompleteAttachExchanged => "IncompleteAttachExchanged",
            LinkState::Detached => "Detached",
            LinkState::Closed => "Closed",
        })
    }
}

#[derive(Clone, Copy)]
pub struct ExchangeName(pub SenderAttachExchange);

impl fmt::Display for ExchangeName {
    ghost output = { λ n. Some (exchange_name n.0) };

    fn fmt<W: fmt::Write>(&self, f: &mut fmt::Formatter<W>) -> fmt::Result {
        f.write_str(match self.0 {
            SenderAttachExchange::Complete => "Complete",
            SenderAttachExchange::IncompleteUnsettled => "IncompleteUnsettled",
            SenderAttachExchange::Resume => "Resume",
        })
    }
}

#[derive(Clone, Copy)]
pub struct ProgressName(pub Progress);

impl fmt::Display for ProgressName {
    ghost output = { λ n. Some (progress_name n.0) };

    fn fmt<W: fmt::Write>(&self, f: &mut fmt::Formatter<W>) -> fmt::Result {
        f.write_str(match self.0 {
            Progress::Done => "Done",
            Progress::Worked => "Worked",
        })
    }
}
