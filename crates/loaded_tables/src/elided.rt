ghost use Rattle.std.specs.Prelude.{◌≡◌, ◌∷◌, [], OnOk, IfOk, IfNone, IfSome, All};
ghost use Rattle.pyramid.specs.Layers.{facts_of};
ghost use Rattle.loaded_tables.specs.Elided.{AddsElided, AreElidedBy, IsRange};

use elision::Elided;
use pur_base::{ElisionFact, NoMemory};
use pyramid::{Patch, Pyramid};
use std::alloc::Global;

/// Elides what the fact does.
fn elide_fact(elided: &mut Elided, fact: &ElisionFact) -> Result<(), NoMemory>
    requires { IsRange fact.now }
    ensures { OnOk result (AddsElided (fact.now ∷ []) elided.old elided.new) }
{
    elided.elide_range(fact.table, fact.first, fact.last)
}

/// Elides what the facts do.
fn elide_facts(elided: &mut Elided, facts: &[ElisionFact]) -> Result<(), NoMemory>
    requires { All IsRange facts.now }
    ensures { OnOk result (AddsElided facts.now elided.old elided.new) }
{
    for fact in facts {
        elide_fact(elided, fact)?;
    }
    Ok(())
}

/// What all these elisions elide, those that others cover too.
pub fn elided_by(alloc: Global, patches: &[Patch<ElisionFact>]) -> Result<Elided, NoMemory>
    requires { All IsRange (facts_of patches.now) }
    ensures { IfOk result (AreElidedBy (facts_of patches.now)) }
{
    let mut elided = Elided::new(alloc);
    for patch in patches {
        elide_facts(&mut elided, patch.facts())?;
    }
    Ok(elided)
}

/// The ids that elisions of patches elide, where others are unflushed, which may stand in the log alone. With none unflushed it makes nothing.
pub fn stored_ids(
    alloc: Global,
    elisions: &Pyramid<ElisionFact>,
) -> Result<Option<Elided>, NoMemory>
    requires { All IsRange (facts_of elisions.now.patches) }
    ensures some { IfOk result (λ ids. IfSome ids (AreElidedBy (facts_of elisions.now.patches))) }
    ensures none { IfOk result (λ ids. IfNone ids (elisions.now.unflushed ≡ [])) }
{
    if elisions.unflushed().is_empty() {
        return Ok(None);
    }
    Ok(Some(elided_by(alloc, elisions.patches())?))
}
