// A delivery tag: 0 to 32 bytes (Part 2, 2.8.7).
ghost use Rattle.std.specs.Prelude.{◌≡◌, ◌-◌, ◌+◌, ◌≤◌, length, drop, replicate, Decides};

mod same;

pub use same::same_bytes_same_tag;

// Zeros stand past its bytes, so that tags of the same bytes are equal, whoever made them. It is copied by value and takes no heap, as a link
// does, and a vector of fixed capacity is not `Copy`: so the length stands beside the bytes. It stands behind them: then a tag is
// compared in the same two pieces of sixteen bytes in which it was copied, and waits for no store.
#[derive(Clone, Copy, PartialEq, Eq)]
pub struct DeliveryTag {
    bytes: [u8; 32],
    len: u8,
    pub ghost within: { (len ≤ 32) × (length bytes ≡ 32) },
    pub ghost clear: { drop len bytes ≡ replicate (32 - len) 0 },
}

// A derive would not know that zeros stand past no bytes.
impl Default for DeliveryTag {
    ghost use Rattle.std.specs.Prelude.{[]};
    ghost use Rattle.amqp.specs.Tags.{tag_bytes};

    ghost is_default = { λ t. tag_bytes t ≡ [] };

    fn default() -> DeliveryTag {
        DeliveryTag {
            len: 0,
            bytes: [0; 32],
        }
    }
}

impl DeliveryTag {
    ghost use Rattle.amqp.specs.Tags.{tag_bytes, tag_within, tag_of, SameBytesSameTag};

    // The tag of these bytes, or none where there are more than 32. An error of `TryFrom` could say no more.
    #[tactic(auto, using(crate::proofs::Tags::within_over_zeros, crate::proofs::Tags::clear_over_zeros))]
    pub fn from_slice(s: &[u8]) -> Option<DeliveryTag>
        ensures { result ≡ tag_within s.now }
    {
        if s.len() > 32 {
            return None;
        }
        let mut bytes = [0; 32];
        bytes[..s.len()].copy_from_slice(s);
        Some(DeliveryTag {
            len: s.len() as u8,
            bytes,
        })
    }

    // A count's tag: its 4 bytes, highest first. A `From` would not say in which order.
    #[tactic(auto, unfolding(crate::specs::Tags::tag_of))]
    pub fn from_count(count: u32) -> DeliveryTag
        ensures { result ≡ tag_of count }
    {
        let mut bytes = [0; 32];
        bytes[..4].copy_from_slice(&count.to_be_bytes());
        DeliveryTag { len: 4, bytes }
    }

    pub fn len(&self) -> usize
        ensures { result ≡ length (tag_bytes self.now) }
    {
        usize::from(self.len).min(32)
    }

    pub fn as_slice(&self) -> &[u8]
        ensures { result.now ≡ tag_bytes self.now }
    {
        &self.bytes[..self.len()]
    }

    // `==`, whose own promise speaks of lengths and bytes, by a name that promises it of the tags.
    #[tactic(auto, using(crate::proofs::Tags::equal_decides))]
    pub fn same(&self, other: &DeliveryTag) -> bool
        ensures { Decides result (self.now ≡ other.now) }
    {
        self == other
    }

    // Two tags with the same bytes are one tag; the tag of bytes has these bytes, and a count's tag its four.
    pub fn same_bytes_same_tag()
        ensures { SameBytesSameTag }
    {}
}
