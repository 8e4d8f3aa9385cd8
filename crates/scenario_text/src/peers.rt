// The peer's map of unsettled deliveries, as an attach's line lists it. A tag may have any number of bytes here, so that too
// long ones can be tried.
ghost use Rattle.std.specs.Prelude.{◌≡◌, ℕ, List, [], ◌++◌, ◌∷◌, ◌==◌, length, map, IfOk, OnOk, MatchOption};
ghost use Rattle.scenario_text.specs.Peers.{ReadsList, Adds};
ghost use Rattle.scenario_text.specs.Commands.{list_text, pair_text};
ghost use Rattle.scenario_text.specs.Reading.{Lacks};
ghost use Rattle.scenario_text.specs.Words.{keyed};
ghost use Rattle.scenario_text.specs.Lists.{pair_of};

use crate::bytes::read_bytes;
use crate::fault::Fault;
use crate::state::read_optional_state;
use amqp::state::DeliveryState;
use std::alloc::{AllocError, Global};
use unsettled::peer::PeerDelivery;

#[derive(Drop)]
struct PeerPair {
    tag: Vec<u8>,
    state: Option<DeliveryState>,
}

impl PeerPair {
    ghost use Rattle.scenario_text.specs.Lists.{pair_of, delivered};

    fn delivery(&self) -> PeerDelivery<'_>
        ensures { delivered result ≡ pair_of self.now }
    {
        PeerDelivery {
            tag: self.tag.as_slice(),
            state: self.state,
        }
    }
}

#[derive(Drop)]
pub struct PeerList {
    heap: Global,
    pairs: Vec<PeerPair>,
}

impl PeerList {
    ghost use Rattle.scenario_text.specs.Lists.{listed, delivered};

    pub fn new(heap: Global) -> PeerList
        ensures { listed result ≡ [] }
    {
        PeerList {
            heap,
            pairs: Vec::new(heap),
        }
    }

    pub fn len(&self) -> usize
        ensures { result ≡ length (listed self.now) }
    {
        self.pairs.len()
    }

    pub fn is_empty(&self) -> bool
        ensures { result ≡ (length (listed self.now) == 0) }
    {
        self.pairs.is_empty()
    }

    // The pairs, as an attach has them.
    pub fn deliveries(&self) -> Result<Vec<PeerDelivery<'_>>, AllocError>
        ensures { IfOk result (λ v. map delivered v.items ≡ listed self.now) }
    {
        let mut deliveries = Vec::with_capacity(self.heap, self.pairs.len())?;
        for pair in &self.pairs {
            deliveries.push(pair.delivery())?;
        }
        Ok(deliveries)
    }

    pub(crate) fn heap(&self) -> Global {
        self.heap
    }

    pub(crate) fn clear(&mut self)
        ensures { listed self.new ≡ [] }
    {
        self.pairs.clear();
    }

    // Holds the pairs of a text then, or none where it has a fault.
    pub(crate) fn read(&mut self, text: &str) -> Result<(), Fault>
        ensures { ReadsList text.now (listed self.new) result }
    {
        self.clear();
        if text == "none" {
            return Ok(());
        }
        match self.add_all(text) {
            Ok(()) => Ok(()),
            Err(fault) => {
                self.clear();
                Err(fault)
            }
        }
    }

    fn add_all(&mut self, text: &str) -> Result<(), Fault>
        requires { listed self.old ≡ [] }
        ensures { OnOk result (text.now ≡ list_text (listed self.new)) }
    {
        for part in text.split(';') {
            self.add(part)?;
        }
        Ok(())
    }

    fn add(&mut self, part: &str) -> Result<(), Fault>
        ensures { OnOk result (Adds part.now (listed self.old) (listed self.new)) }
    {
        let pair = read_pair(part, self.heap)?;
        match self.pairs.push(pair) {
            Ok(()) => Ok(()),
            Err(_) => Err(Fault::OutOfMemory),
        }
    }
}

// A tag and a state around an equals sign.
fn halves(part: &str) -> Option<(&str, &str)>
    ensures { MatchOption result ((a b : List ℕ) → Lacks 61 a → part.now ≡ keyed a b → ⊥) (λ x. Lacks 61 x.0.now × (part.now ≡ keyed x.0.now x.1.now)) }
{
    part.split_once('=')
}

fn read_pair(part: &str, heap: Global) -> Result<PeerPair, Fault>
    ensures { IfOk result (λ p. part.now ≡ pair_text (pair_of p)) }
{
    let (tag, state) = halves(part).ok_or(Fault::UnknownWord("unsettled"))?;
    let state = read_optional_state(state).ok_or(Fault::UnknownWord("unsettled"))?;
    match read_bytes(tag, heap) {
        Ok(tag) => Ok(PeerPair { tag, state }),
        Err(fault) => Err(Fault::of_digits("unsettled", fault)),
    }
}
