ghost use Rattle.std.specs.Prelude.{◌≡◌, ◌↔◌, length, Ok, IsErr, IsTrue, IfOk};
ghost use Rattle.pur_base.specs.declared.facts.AnyFact.{AnyFact};
ghost use Rattle.fact_codec.specs.declared.limits.TheConstants.{VALUE_BYTES};
ghost use Rattle.fact_codec.specs.Fact.{Decodes};
ghost use Rattle.fact_codec.specs.Heads.{FitsHead};
ghost use Rattle.fact_codec.specs.Values.{IsHeaded, IsJudged, IsValueOf, IsSpelled};

use crate::head::{Head, head_in};
use crate::lawful::is_lawful;
use crate::limits::FACT_BYTES;
use crate::values::{address_in, elision_in, medium_in, object_in, segment_in};
use pur_base::{AnyFact, Table};

/// The bytes spell no fact.
#[derive(Clone, Copy, PartialEq, Eq)]
pub struct BadFact;

/// The fact that the head and the value give. Whether it is in bounds and has that head isn't judged yet.
fn fact_in(head: &Head, value: &[u8]) -> Result<AnyFact, BadFact>
    requires head { FitsHead head.now }
    requires value { length value.now ≡ VALUE_BYTES }
    ensures ok { IfOk result (λ fact. IsValueOf value.now fact) }
    ensures complete { (fact : AnyFact) → IsSpelled head.now value.now fact → result ≡ Ok fact }
{
    let Some(table) = Table::from_tag(head.tag) else {
        return Err(BadFact);
    };
    Ok(match table {
        Table::Object => AnyFact::Object(object_in(head, value)?),
        Table::Medium => AnyFact::Medium(medium_in(head, value)?),
        Table::Address => AnyFact::Address(address_in(head, value)?),
        Table::Segment => AnyFact::Segment(segment_in(head, value)?),
        Table::Elision => AnyFact::Elision(elision_in(head, value)?),
    })
}

/// Whether a fact whose value was judged is in bounds, and has that head.
fn is_headed(head: &Head, fact: &AnyFact) -> bool
    requires { IsJudged fact.now }
    ensures { IsTrue result ↔ IsHeaded head.now fact.now }
{
    *head == Head::of(fact) && is_lawful(fact)
}

/// The fact that the bytes spell, or `BadFact` where they spell none.
pub fn read_fact(bytes: &[u8; FACT_BYTES]) -> Result<AnyFact, BadFact>
    // What is read is lawful, and spelled so.
    ensures ok { IfOk result (λ fact. Decodes bytes.now fact) }
    // What is spelled so is read.
    ensures complete { (fact : AnyFact) → Decodes bytes.now fact → result ≡ Ok fact }
    ensures err { IsErr result ↔ ((fact : AnyFact) → ¬ Decodes bytes.now fact) }
{
    let (head, value) = head_in(bytes);
    let fact = fact_in(&head, value)?;
    if !is_headed(&head, &fact) {
        return Err(BadFact);
    }
    Ok(fact)
}
