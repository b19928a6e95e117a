ghost use Rattle.std.specs.Prelude.{◌↔◌, ◌≡◌, true, IsTrue};
ghost use Rattle.pur_base.specs.Names.{is_name};
ghost use Rattle.pur_base.specs.declared.facts.AnyFact.TheVariants as any;
ghost use Rattle.fact_codec.specs.Fact.{IsNext, IsLawful, IsStatement, IsTarget, LeadsNowhere, LeadsDown};
ghost use Rattle.fact_codec.specs.Values.{IsJudged};

use crate::limits::NUMBER_LIMIT;
use pur_base::{
    AddressFact, AnyFact, ElisionFact, MediumFact, OBJECT_SECTORS, ObjectFact, SEGMENT_SECTORS,
    SegmentFact, Table,
};

/// Whether a number can be an id or a sequence number.
pub fn is_next(number: u64) -> bool
    ensures { IsTrue result ↔ IsNext number }
{
    1 <= number && number < NUMBER_LIMIT
}

/// Whether an object with a lawful name is of a lawful size, and reads as a medium.
fn is_object(object: &ObjectFact) -> bool
    requires { is_name object.now.name ≡ true }
    ensures { IsTrue result ↔ IsStatement (any.Object object.now) }
{
    let some = 1 <= object.sectors;
    let within = u64::from(object.sectors) <= OBJECT_SECTORS;
    some && within && 1 <= object.medium.0
}

fn leads_nowhere(range: &MediumFact) -> bool
    ensures { IsTrue result ↔ LeadsNowhere range.now }
{
    range.end == range.start && range.target.0 == 0 && range.target_start == 0
}

fn leads_down(range: &MediumFact) -> bool
    ensures { IsTrue result ↔ LeadsDown range.now }
{
    range.start < range.end
        && range.end <= OBJECT_SECTORS
        && range.target.0 < range.medium.0
        && range.target_start <= OBJECT_SECTORS - (range.end - range.start)
}

fn is_medium(range: &MediumFact) -> bool
    ensures { IsTrue result ↔ IsStatement (any.Medium range.now) }
{
    leads_nowhere(range) || leads_down(range)
}

fn is_address(address: &AddressFact) -> bool
    requires { IsTarget address.now.target }
    ensures { IsTrue result ↔ IsStatement (any.Address address.now) }
{
    u64::from(address.sector) < OBJECT_SECTORS
}

fn is_segment(segment: &SegmentFact) -> bool
    ensures { IsTrue result ↔ IsStatement (any.Segment segment.now) }
{
    1 <= segment.placed && segment.placed <= SEGMENT_SECTORS
}

fn is_elision(elision: &ElisionFact) -> bool
    ensures { IsTrue result ↔ IsStatement (any.Elision elision.now) }
{
    elision.table.tag() < Table::Elision.tag() && elision.first <= elision.last
}

/// Whether an address with a lawful target is in bounds.
pub fn is_lawful_address(address: &AddressFact) -> bool
    requires { IsTarget address.now.target }
    ensures { IsTrue result ↔ IsLawful (any.Address address.now) }
{
    is_next(address.medium.0) && is_next(address.seq.0) && is_address(address)
}

/// Whether a fact is in bounds. Its name or its target isn't judged again: their readers have done that.
pub fn is_lawful(fact: &AnyFact) -> bool
    requires { IsJudged fact.now }
    ensures { IsTrue result ↔ IsLawful fact.now }
{
    match fact {
        AnyFact::Object(f) => is_next(f.object.0) && is_next(f.seq.0) && is_object(f),
        AnyFact::Medium(f) => is_next(f.medium.0) && is_next(f.seq.0) && is_medium(f),
        AnyFact::Address(f) => is_lawful_address(f),
        AnyFact::Segment(f) => is_next(f.segment.0) && is_next(f.seq.0) && is_segment(f),
        AnyFact::Elision(f) => is_next(f.first) && is_next(f.seq.0) && is_elision(f),
    }
}
