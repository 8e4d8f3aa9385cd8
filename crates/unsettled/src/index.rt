// An index of places by their keys, so that a key is found without a search of all places.
ghost use Rattle.std.specs.Prelude.{◌≡◌, ◌%◌, ◌<◌, Some, None, length, replicate, slice_set};
ghost use Rattle.std.specs.List.{position};
ghost use Rattle.unsettled.specs.Keys.{mixed};
ghost use Rattle.unsettled.specs.Threads.{in_bucket, key_at, Threaded, Threaded-prop, Before};

// How many places it has. Those past them have no key.
pub const PLACES: usize = 1024;

// A key is in one of 2,048 buckets. A bucket's places are linked upward from its head, so that the first that has a key is the
// first that is met. A link of 1,024 ends them.
#[derive(Drop)]
pub struct Index {
    heads: [u16; 2048],
    next: [u16; 1024],
    keys: [Option<u32>; 1024],
    ghost threaded: { Threaded heads next keys } by { Threaded-prop heads next keys },
}

// The key of some bytes, which few others share.
#[tactic(auto, unfolding(crate::specs::Keys::mixed))]
pub fn key_of_bytes(bytes: &[u8]) -> u32
    ensures { result ≡ mixed bytes.now }
{
    bytes.iter().fold(2_166_136_261u32, |key, byte| {
        key.wrapping_mul(16_777_619).wrapping_add(u32::from(*byte))
    })
}

fn bucket_of(key: u32) -> usize
    ensures value { result ≡ key % 2048 }
    ensures within { result < 2048 }
{
    (key % 2048) as usize
}

impl Index {
    ghost use Rattle.unsettled.specs.Indexes.{keys_of, is_key};

    // No place has a key.
    pub fn new() -> Index
        ensures { keys_of result ≡ replicate 1024 None }
    {
        Index {
            heads: [1024; 2048],
            next: [1024; 1024],
            keys: [None; 1024],
        }
    }

    // The first place that has a key.
    #[tactic(auto, unfolding(crate::specs::Threads::Threaded))]
    pub fn find(&self, key: u32) -> Option<usize>
        ensures { result ≡ position (is_key key) (keys_of self.now) }
    {
        let mut place = usize::from(self.heads[bucket_of(key)]);
        while place < PLACES {
            if self.keys[place] == Some(key) {
                return Some(place);
            }
            place = usize::from(self.next[place]);
        }
        None
    }

    // The last place of a bucket before this one.
    #[tactic(auto, unfolding(crate::specs::Threads::Threaded))]
    fn before(&self, bucket: usize, place: usize) -> Option<usize>
        requires bucket { bucket < 2048 }
        requires place { place < 1024 }
        ensures { Before (keys_of self.now) bucket place result }
    {
        let mut last = None;
        let mut at = usize::from(self.heads[bucket]);
        while at < place {
            last = Some(at);
            at = usize::from(self.next[at]);
        }
        last
    }

    // A place has a key no more.
    pub fn remove(&mut self, place: usize)
        ensures { keys_of self.new ≡ slice_set (keys_of self.old) place None }
    {
        if place < PLACES
            && let Some(key) = self.keys[place]
        {
            let bucket = bucket_of(key);
            let after = self.next[place];
            match self.before(bucket, place) {
                Some(last) => self.next[last] = after,
                None => self.heads[bucket] = after,
            }
            self.keys[place] = None;
        }
    }

    // A place that has no key gets one.
    fn insert(&mut self, place: usize, key: u32)
        requires place { place < 1024 }
        requires free { key_at (keys_of self.old) place ≡ None }
        ensures { keys_of self.new ≡ slice_set (keys_of self.old) place (Some key) }
    {
        let bucket = bucket_of(key);
        match self.before(bucket, place) {
            Some(last) => {
                self.next[place] = self.next[last];
                self.next[last] = place as u16;
            }
            None => {
                self.next[place] = self.heads[bucket];
                self.heads[bucket] = place as u16;
            }
        }
        self.keys[place] = Some(key);
    }

    // A place has this key, and no other.
    pub fn put(&mut self, place: usize, key: u32)
        ensures { keys_of self.new ≡ slice_set (keys_of self.old) place (Some key) }
    {
        if place < PLACES {
            self.remove(place);
            self.insert(place, key);
        }
    }
}
