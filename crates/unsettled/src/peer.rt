// The peer's map of unsettled deliveries, as its attach brings it (Part 2, 2.7.3).
ghost use Rattle.std.specs.Prelude.{◌≡◌, ◌<◌, ◌≤◌, min, [], true, false, not, length, take, fold, Decides};
ghost use Rattle.std.specs.List.{find};
ghost use Rattle.std.specs.Option.{option_map};
ghost use Rattle.unsettled.specs.Peers.{among, tag_at, illegal_at, illegal_tags, pair_of, with_pair, peers_of, key_of_pair, LegalTags, LegalUpTo};
ghost use Rattle.unsettled.specs.Indexes.{keys_of};
ghost use Rattle.unsettled.specs.Keyed.{Keyed};
ghost use Rattle.unsettled.specs.Tables.{held, room, look};

use crate::index::{Index, PLACES, key_of_bytes};
use crate::map::UnsettledMap;
use crate::slot::Slot;
use amqp::state::DeliveryState;
use amqp::tag::DeliveryTag;

// The most bytes of a tag (Part 2, 2.8.7).
const MAX_TAG: usize = 32;

// So few pairs are searched one by one: that is sooner done than an index is laid out.
pub const FEW_PAIRS: usize = 16;

#[derive(Clone, Copy)]
pub struct PeerDelivery<'p> {
    pub tag: &'p [u8],
    pub state: Option<DeliveryState>,
}

// Some pair has this tag.
fn is_among(tag: &[u8], pairs: &[PeerDelivery<'_>]) -> bool
    ensures { result ≡ among tag.now pairs.now }
{
    pairs.iter().any(|pair| pair.tag == tag)
}

// The tag at i stands among the first ones before it, which an index holds.
fn stands_before(index: &Index, pairs: &[PeerDelivery<'_>], i: usize) -> bool
    requires place { i < length pairs.now }
    requires keyed { Keyed key_of_pair (keys_of index.now) i pairs.now }
    ensures { result ≡ among (tag_at pairs.now i) (take (min i 1024) pairs.now) }
{
    let tag = pairs[i].tag;
    match index.find(key_of_bytes(tag)) {
        Some(j) if j < i && pairs[j].tag == tag => true,
        None => false,
        _ => is_among(tag, &pairs[..i.min(PLACES)]),
    }
}

// Some tag is too long, or one of the first, as many as an index has places for, stands again.
fn has_early_fault(pairs: &[PeerDelivery<'_>]) -> bool
    ensures fault { result ≡ true → LegalTags pairs.now → ⊥ }
    ensures legal { result ≡ false → LegalUpTo 1024 pairs.now }
{
    let mut index = Index::new();
    for i in 0..pairs.len() {
        let tag = pairs[i].tag;
        if tag.len() > MAX_TAG || stands_before(&index, pairs, i) {
            return true;
        }
        index.put(i, key_of_bytes(tag));
    }
    false
}

// The tag at i is too long, or stands before i too.
fn is_illegal(pairs: &[PeerDelivery<'_>], i: usize) -> bool
    requires { i < length pairs.now }
    ensures { result ≡ illegal_at pairs.now i }
{
    let tag = pairs[i].tag;
    tag.len() > MAX_TAG || is_among(tag, &pairs[..i])
}

// By place, since each tag is compared with those before it.
fn is_any_illegal(pairs: &[PeerDelivery<'_>]) -> bool
    ensures value { result ≡ illegal_tags pairs.now }
    ensures legal { Decides (not result) (LegalTags pairs.now) }
{
    (0..pairs.len()).any(|i| is_illegal(pairs, i))
}

// Some tag is too long, or stands twice.
pub fn has_illegal_tag(pairs: &[PeerDelivery<'_>]) -> bool
    ensures value { result ≡ illegal_tags pairs.now }
    ensures legal { Decides (not result) (LegalTags pairs.now) }
{
    if pairs.len() <= FEW_PAIRS {
        return is_any_illegal(pairs);
    }
    let mut from = 0;
    while from < pairs.len() {
        if has_early_fault(&pairs[from..]) {
            return true;
        }
        from += PLACES;
    }
    false
}

// A pair has this tag.
#[tactic(auto, unfolding(crate::specs::Tables::same_tag))]
fn is_of(pair: &PeerDelivery<'_>, tag: &DeliveryTag) -> bool
    ensures { result ≡ pair_of tag.now pair.now }
{
    DeliveryTag::from_slice(pair.tag).is_some_and(|own| own == *tag)
}

fn first_state(pairs: &[PeerDelivery<'_>], tag: &DeliveryTag) -> Option<Option<DeliveryState>>
    ensures { result ≡ option_map (λ p. p.state) (find (pair_of tag.now) pairs.now) }
{
    let pair = pairs.iter().find(|pair| is_of(pair, tag))?;
    Some(pair.state)
}

// What the pairs say of a tag: the first that has it does.
pub fn peer_state(pairs: &[PeerDelivery<'_>], tag: &DeliveryTag) -> Option<Option<DeliveryState>>
    ensures value { result ≡ option_map (λ p. p.state) (find (pair_of tag.now) pairs.now) }
    ensures legal { LegalTags pairs.now → result ≡ look tag.now (peers_of pairs.now) }
{
    first_state(pairs, tag)
}

// Puts a pair under its tag, if the tag is short enough and the memory reaches.
fn put_pair(map: &mut UnsettledMap<'_, Option<DeliveryState>>, pair: &PeerDelivery<'_>)
    ensures holds { held map.new ≡ with_pair (room map.old) (held map.old) pair.now }
    ensures room { room map.new ≡ room map.old }
{
    if let Some(tag) = DeliveryTag::from_slice(pair.tag) {
        let _ = map.put(tag, pair.state);
    }
}

// The pairs as a table. It holds all of them where their tags are legal and the memory is long enough.
pub fn peer_map<'m>(
    slots: &'m mut [Slot<Option<DeliveryState>>],
    pairs: &[PeerDelivery<'_>],
) -> UnsettledMap<'m, Option<DeliveryState>>
    ensures holds { held result ≡ fold (with_pair (length slots.old)) [] pairs.now }
    ensures room { room result ≡ length slots.old }
    ensures whole { LegalTags pairs.now → length pairs.now ≤ length slots.old → held result ≡ peers_of pairs.now }
{
    let mut map = UnsettledMap::new(slots);
    for pair in pairs {
        put_pair(&mut map, pair);
    }
    map
}
