// When two tags are one, by a path that names no type.
ghost use Rattle.amqp.specs.Tags.{SameBytesSameTag};

#[tactic(auto, using(crate::proofs::Tags::stands))]
pub fn same_bytes_same_tag()
    ensures { SameBytesSameTag }
{}
