// What stands around the link: the pool, the encoder and the sink; and what is shown of all.
ghost use Rattle.std.specs.Prelude.{◌≡◌, true, false, take, vec_items, IfOk, MatchResult};
ghost use Rattle.sink.specs.Frames.{stopped_by};
ghost use Rattle.scenario_play.specs.Chosens.{bytes_of};
ghost use Rattle.scenario_play.specs.Lines.{FillsLine, NoPool, TellsTaken, TakesLine, NotRead, EmptiesLine, ShowsLine, StatesLine};
ghost use Rattle.scenario_play.specs.Performing.{OrNoMemory};
ghost use Rattle.scenario_play.specs.Scenes.{with_sink, with_encoder};

use super::Player;
use crate::answer::{Answer, Refusal, Taken};
use crate::chosen::Chosen;
use crate::files::Files;
use crate::outlet::Outlet;
use crate::snapshot::Snapshot;
use crate::trouble::Trouble;
use amqp::stop::SessionStopReason;
use codec::encoder::Encoder;
use queue::place::Place;
use scenario_text::bytes::read_bytes;
use scenario_text::command::{EncoderForm, PoolSource};
use scenario_text::fault::Fault;
use std::alloc::{AllocError, Global};
use unsettled::slot::Slot;

// The most bytes of a pool, some more than a link takes.
const LARGEST_POOL: usize = 70_000_000;

// A frame's header in the encoder's bytes, and its payload, which lies in `out`.
fn taken(heap: Global, encoder: &Chosen, place: &Place, out: &[u8]) -> Result<Taken, AllocError>
    ensures kind { IfOk result (λ t. (t.kind ≡ place.now.kind) × (t.handle ≡ place.now.handle)) }
    ensures header { IfOk result (λ t. vec_items t.header ≡ bytes_of encoder.now.0 place.now.header) }
    ensures payload { IfOk result (λ t. vec_items t.payload ≡ take place.now.size out.now) }
{
    let mut header = vec![in heap; 0u8; encoder.size(&place.header)]?;
    let _ = encoder.write(&place.header, &mut header);
    let frame = place.frame(out);
    Ok(Taken {
        kind: place.kind,
        handle: place.handle,
        header,
        payload: Vec::from_slice(heap, frame.payload)?,
    })
}

// What was taken, whose payload lies in `out`.
fn tell(
    heap: Global,
    encoder: &Chosen,
    place: Option<Place>,
    out: &[u8],
) -> Result<Answer, AllocError>
    ensures { IfOk result (λ a. TellsTaken a place encoder.now.0 out.now) }
{
    match place {
        Some(place) => Ok(Answer::Frame(Some(taken(heap, encoder, &place, out)?))),
        None => Ok(Answer::Frame(None)),
    }
}

impl<'a, S: Outlet> Player<'a, S> {
    pub(super) fn choose(&mut self, form: EncoderForm) -> Answer
        ensures answer { result ≡ Answer.Encoder form }
        ensures scene { self.new ≡ with_encoder form self.old }
    {
        self.encoder = Chosen(form);
        Answer::Encoder(form)
    }

    pub(super) fn fill<F: Files>(
        &mut self,
        source: &PoolSource<'_>,
        files: &F,
    ) -> Result<Answer, Trouble>
        ensures { MatchResult result (λ a. FillsLine (F.holds files.now) source.now self.old a self.new) (NoPool (F.holds files.now) source.now) }
    {
        let pool = match *source {
            PoolSource::Digits(text) => read_bytes(text, self.heap).map_err(
                |fault| Fault::of_digits("pool", fault),
            )?,
            PoolSource::Repeat { count, byte } => vec![in self.heap; byte; count]?,
            PoolSource::File(path) => files.read(self.heap, path).map_err(|_| Trouble::File)?,
        };
        if pool.len() > LARGEST_POOL {
            return Err(Trouble::LargePool);
        }
        self.pool = pool;
        Ok(Answer::Pool(self.pool.len()))
    }

    pub(super) fn take(&mut self) -> Result<Answer, Trouble>
        ensures { MatchResult result (λ a. TakesLine S.Outlet.framewise self.old a self.new) (NotRead S.Outlet.framewise false) }
    {
        let place = self.sink.take(&mut self.out)?;
        Ok(tell(self.heap, &self.encoder, place, self.out.as_slice())?)
    }

    pub(super) fn empty(&mut self) -> Result<Answer, Trouble>
        ensures { MatchResult result (λ a. EmptiesLine S.Outlet.framewise self.old a self.new) (NotRead S.Outlet.framewise true) }
    {
        Ok(Answer::Records(self.sink.empty(self.heap)?))
    }

    pub(super) fn stop(&mut self, reason: SessionStopReason) -> Answer
        ensures answer { result ≡ Answer.Stopped }
        ensures scene { self.new ≡ with_sink (stopped_by reason self.old.sink) self.old }
    {
        self.sink.stop(reason);
        Answer::Stopped
    }

    pub(super) fn show(
        &self,
        is_reattaching: bool,
        partial_unsettled: usize,
        room: usize,
    ) -> Result<Answer, Trouble>
        ensures { OrNoMemory result (ShowsLine is_reattaching partial_unsettled room self.now) }
    {
        let mut out = vec![in self.heap; Slot::default(); room]?;
        let shown = self
            .link
            .get_unsettled_map(is_reattaching, partial_unsettled, &mut out);
        match shown {
            Ok(None) => Ok(Answer::Shown(None)),
            Ok(Some(count)) => {
                out.truncate(count);
                Ok(Answer::Shown(Some(out)))
            }
            Err(e) => Ok(Answer::Refused(Refusal::Number(e.number()))),
        }
    }

    pub(super) fn snapshot(&self) -> Result<Answer, Trouble>
        ensures { OrNoMemory result (λ a. StatesLine a self.now.link) }
    {
        Ok(Answer::Whole(Snapshot::new(self.heap, &self.link)?))
    }
}
