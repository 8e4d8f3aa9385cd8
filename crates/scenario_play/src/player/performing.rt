// A command of a scenario.
ghost use Rattle.std.specs.Prelude.{◌≡◌, List, Some};
ghost use Rattle.std.specs.List.{slice_get};
ghost use Rattle.scenario_text.specs.Commands.{Pair, words_of};
ghost use Rattle.scenario_text.specs.Lists.{listed};
ghost use Rattle.scenario_play.specs.Performing.{Performs};

use super::Player;
use crate::answer::Answer;
use crate::files::Files;
use crate::outlet::Outlet;
use crate::trouble::Trouble;
use scenario_text::command::Command;
use scenario_text::peers::PeerList;

impl<'a, S: Outlet> Player<'a, S> {
    // Carries out a line's command, an attach with the list that stands there.
    pub fn perform<F: Files>(
        &mut self,
        command: &Command<'_>,
        list: &PeerList,
        files: &F,
    ) -> Result<Answer, Trouble>
        ensures { Performs S.Outlet.framewise (F.holds files.now) command.now (listed list.now) self.old result self.new }
    {
        match command {
            Command::Link(_) | Command::Queue { .. } | Command::Spool { .. } => Err(Trouble::Again),
            Command::Encoder(form) => Ok(self.choose(*form)),
            Command::Pool(source) => self.fill(source, files),
            Command::Open {
                handle,
                incomplete_unsettled,
            } => Ok(self.open(*handle, *incomplete_unsettled)),
            Command::Attach(attach) => self.attach(attach, list),
            Command::Flow(flow) => Ok(self.flow(flow)),
            Command::Send(message) => self.send(message),
            Command::Disposition {
                tag,
                settled,
                state,
            } => Ok(self.disposition(tag, *settled, *state)),
            Command::Dispose(disposal) => Ok(self.dispose(disposal)),
            Command::Work => Ok(self.work()),
            Command::Resend => Ok(self.resend()),
            Command::Detach { closed, error } => Ok(self.detach(*closed, *error)),
            Command::Look(number) => Ok(self.look(*number)),
            Command::Collect(number) => Ok(self.collect(*number)),
            Command::Take => self.take(),
            Command::Empty => self.empty(),
            Command::Stop(reason) => Ok(self.stop(*reason)),
            Command::Show {
                is_reattaching,
                partial_unsettled,
                room,
            } => self.show(*is_reattaching, *partial_unsettled, *room),
            Command::State => self.snapshot(),
        }
    }
}

// The word that a command's line begins with.
pub fn word(command: &Command<'_>) -> &'static str
    ensures { (ps : List Pair) → slice_get (words_of command.now ps) 0 ≡ Some result.now }
{
    match command {
        Command::Link(_) => "link",
        Command::Queue { .. } => "queue",
        Command::Spool { .. } => "spool",
        Command::Encoder(_) => "encoder",
        Command::Pool(_) => "pool",
        Command::Open { .. } => "open",
        Command::Attach(_) => "attach",
        Command::Flow(_) => "flow",
        Command::Send(_) => "send",
        Command::Disposition { .. } => "disposition",
        Command::Dispose(_) => "dispose",
        Command::Work => "work",
        Command::Resend => "resend",
        Command::Detach { .. } => "detach",
        Command::Look(_) => "look",
        Command::Collect(_) => "collect",
        Command::Take => "take",
        Command::Empty => "empty",
        Command::Stop(_) => "stop",
        Command::Show { .. } => "show",
        Command::State => "state",
    }
}
