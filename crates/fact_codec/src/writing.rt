ghost use Rattle.std.specs.Prelude.{◌≡◌, ◌≤◌, ◌++◌, ◌+◌, length};
ghost use Rattle.pur_base.specs.declared.facts.AnyFact.TheVariants as any;
ghost use Rattle.fact_codec.specs.declared.limits.TheConstants.{FACT_BYTES, HEAD_BYTES, VALUE_BYTES};
ghost use Rattle.fact_codec.specs.Fact.{IsLawful, Decodes, FitsTypes};
ghost use Rattle.fact_codec.specs.Heads.{head_bytes};
ghost use Rattle.fact_codec.specs.Values.{put_bytes};

use crate::head::Head;
use crate::limits::FACT_BYTES;
use pur_base::{
    AddressFact, AnyFact, ElisionFact, Front, MediumFact, ObjectFact, SegmentFact, Target,
};

/// A fact that is being written, with zeros behind what is written so far.
type FactFront = Front<FACT_BYTES>;

fn put_head(front: &mut FactFront, head: &Head)
    requires { length front.old + HEAD_BYTES ≤ FACT_BYTES }
    ensures bytes { front.new ≡ front.old ++ head_bytes head.now }
    ensures len { length front.new ≡ length front.old + HEAD_BYTES }
{
    front.put_u8(head.tag);
    front.put_u8(head.kind);
    front.put_u8(head.name_len);
    front.put_u8(head.zero);
    front.put_u32(head.sectors);
    front.put_u64(head.id);
    front.put_u64(head.second);
    front.put_u64(head.number);
}

fn put_object(front: &mut FactFront, object: &ObjectFact)
    requires { length front.old + VALUE_BYTES ≤ FACT_BYTES }
    ensures bytes { front.new ≡ front.old ++ put_bytes (any.Object object.now) }
    ensures fits { FitsTypes (any.Object object.now) }
{
    front.put_u64(object.medium.0);
    front.put(object.name.as_bytes());
}

fn put_medium(front: &mut FactFront, range: &MediumFact)
    requires { length front.old + VALUE_BYTES ≤ FACT_BYTES }
    ensures bytes { front.new ≡ front.old ++ put_bytes (any.Medium range.now) }
    ensures fits { FitsTypes (any.Medium range.now) }
{
    // Read for its bound alone: the head has written it.
    let _start = range.start;
    front.put_u64(range.end);
    front.put_u64(range.target.0);
    front.put_u64(range.target_start);
}

fn put_address(front: &mut FactFront, address: &AddressFact)
    requires { length front.old + VALUE_BYTES ≤ FACT_BYTES }
    ensures bytes { front.new ≡ front.old ++ put_bytes (any.Address address.now) }
    ensures fits { FitsTypes (any.Address address.now) }
{
    if let Target::Stored(at) = &address.target {
        front.put_u64(at.segment.0);
        front.put_u16(at.index);
    }
}

fn put_segment(front: &mut FactFront, segment: &SegmentFact)
    requires { length front.old + VALUE_BYTES ≤ FACT_BYTES }
    ensures bytes { front.new ≡ front.old ++ put_bytes (any.Segment segment.now) }
    ensures fits { FitsTypes (any.Segment segment.now) }
{
    front.put_places(&segment.places);
    front.put_u16(segment.placed);
}

fn put_elision(front: &mut FactFront, elision: &ElisionFact)
    requires { length front.old + VALUE_BYTES ≤ FACT_BYTES }
    ensures bytes { front.new ≡ front.old ++ put_bytes (any.Elision elision.now) }
    ensures fits { FitsTypes (any.Elision elision.now) }
{
    front.put_u64(elision.last);
}

/// What the fact says of its key.
fn put_value(front: &mut FactFront, fact: &AnyFact)
    requires { length front.old + VALUE_BYTES ≤ FACT_BYTES }
    ensures bytes { front.new ≡ front.old ++ put_bytes fact.now }
    ensures fits { FitsTypes fact.now }
{
    match fact {
        AnyFact::Object(object) => put_object(front, object),
        AnyFact::Medium(range) => put_medium(front, range),
        AnyFact::Address(address) => put_address(front, address),
        AnyFact::Segment(segment) => put_segment(front, segment),
        AnyFact::Elision(elision) => put_elision(front, elision),
    }
}

/// The bytes that spell the fact.
pub fn write_fact(fact: &AnyFact) -> [u8; FACT_BYTES]
    requires { IsLawful fact.now }
    ensures { Decodes result fact.now }
{
    let mut front = FactFront::new();
    put_head(&mut front, &Head::of(fact));
    put_value(&mut front, fact);
    front.into_bytes()
}
