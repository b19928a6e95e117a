ghost use Rattle.std.specs.Prelude.{◌≡◌, ◌++◌, length};
ghost use Rattle.fact_codec.specs.Heads.{head_bytes, head_of, head_of_key, FitsHead};
ghost use Rattle.fact_codec.specs.declared.limits.TheConstants.{FACT_BYTES, VALUE_BYTES};

use crate::codes::{object_code, target_code};
use crate::limits::FACT_BYTES;
use pur_base::{AnyFact, Seq, Table, u8_in, u32_in, u64_in};

/// The fields that facts of all tables have, in front of the value.
#[derive(Clone, Copy, PartialEq, Eq)]
pub struct Head {
    pub tag: u8,
    /// The code of an object's kind or of an address's target, and 0 of other facts.
    pub kind: u8,
    /// The length of an object's name, and 0 of other facts.
    pub name_len: u8,
    pub zero: u8,
    /// The size of an object, and 0 of other facts.
    pub sectors: u32,
    /// The id by which the fact is elided.
    pub id: u64,
    /// The second number of the key.
    pub second: u64,
    /// The sequence number.
    pub number: u64,
}

impl Head {
    /// The head of a fact that has a key and a sequence number alone.
    fn of_key(table: Table, id: u64, second: u64, seq: Seq) -> Head
        ensures { result ≡ head_of_key table id second seq.0 }
    {
        Head {
            tag: table.tag(),
            kind: 0,
            name_len: 0,
            zero: 0,
            sectors: 0,
            id,
            second,
            number: seq.0,
        }
    }

    /// The head of a fact.
    pub fn of(fact: &AnyFact) -> Head
        ensures { result ≡ head_of fact.now }
    {
        match fact {
            AnyFact::Object(object) => Head {
                kind: object_code(object.kind),
                name_len: object.name.as_bytes().len() as u8,
                sectors: object.sectors,
                ..Head::of_key(Table::Object, object.object.0, 0, object.seq)
            },
            AnyFact::Medium(medium) => {
                Head::of_key(Table::Medium, medium.medium.0, medium.start, medium.seq)
            }
            AnyFact::Address(address) => Head {
                kind: target_code(&address.target),
                ..Head::of_key(
                    Table::Address,
                    address.medium.0,
                    u64::from(address.sector),
                    address.seq,
                )
            },
            AnyFact::Segment(segment) => {
                Head::of_key(Table::Segment, segment.segment.0, 0, segment.seq)
            }
            AnyFact::Elision(elision) => Head::of_key(
                Table::Elision,
                elision.first,
                u64::from(elision.table.tag()),
                elision.seq,
            ),
        }
    }
}

/// The head in front, and the value behind it.
pub fn head_in(bytes: &[u8; FACT_BYTES]) -> (Head, &[u8])
    ensures field { bytes.now ≡ head_bytes result.0 ++ result.1.now }
    ensures fits { FitsHead result.0 }
    ensures value { length result.1.now ≡ VALUE_BYTES }
{
    let (tag, rest) = u8_in(bytes);
    let (kind, rest) = u8_in(rest);
    let (name_len, rest) = u8_in(rest);
    let (zero, rest) = u8_in(rest);
    let (sectors, rest) = u32_in(rest);
    let (id, rest) = u64_in(rest);
    let (second, rest) = u64_in(rest);
    let (number, value) = u64_in(rest);
    let head = Head {
        tag,
        kind,
        name_len,
        zero,
        sectors,
        id,
        second,
        number,
    };
    (head, value)
}
