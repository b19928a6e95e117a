ghost use Rattle.std.specs.Prelude.{◌≡◌, ◌↔◌, IsTrue};
ghost use Rattle.pur_base.specs.Facts.{table_tag, any_key};
ghost use Rattle.fact_codec.specs.Fact.{MayFollow};

use pur_base::{AnyFact, Fact, Table};

fn table_of(fact: &AnyFact) -> u8
    ensures { result ≡ table_tag fact.now }
{
    let table = match fact {
        AnyFact::Object(_) => Table::Object,
        AnyFact::Medium(_) => Table::Medium,
        AnyFact::Address(_) => Table::Address,
        AnyFact::Segment(_) => Table::Segment,
        AnyFact::Elision(_) => Table::Elision,
    };
    table.tag()
}

fn key_of(fact: &AnyFact) -> u128
    ensures { result ≡ any_key fact.now }
{
    match fact {
        AnyFact::Object(f) => f.key(),
        AnyFact::Medium(f) => f.key(),
        AnyFact::Address(f) => f.key(),
        AnyFact::Segment(f) => f.key(),
        AnyFact::Elision(f) => f.key(),
    }
}

/// Whether one fact may stand behind another in a patch: both are of one table, and the later one has the greater key.
pub fn may_follow(earlier: &AnyFact, later: &AnyFact) -> bool
    ensures { IsTrue result ↔ MayFollow earlier.now later.now }
{
    table_of(earlier) == table_of(later) && key_of(earlier) < key_of(later)
}
