ghost use Rattle.std.specs.Prelude.{◌≡◌, ◌≤◌, ◌<◌, ◌^◌, ◌↔◌, IsTrue, IfOk, All};
ghost use Rattle.pur_base.specs.Facts.{Facts, object_key, never};
ghost use Rattle.pur_base.specs.Visible.{is_elided};
ghost use Rattle.pur_base.specs.declared.request.Table.TheVariants as table;
ghost use Rattle.pyramid.specs.Layers.{facts_of};
ghost use Rattle.pyramid.specs.Shown.{IsShown};
ghost use Rattle.object_table.specs.Objects.{number, AreNamesDistinct};
ghost use Rattle.loaded_tables.specs.Elided.{AreElidedBy};
ghost use Rattle.table_soundness.specs.Items.{AreObjectsRight, AreObjectsListed, IsKept};

use crate::ids::are_ids_below;
use crate::owned::own_their_mediums;
use boot_codec::NextNumbers;
use elision::Elided;
use indexmap::IndexSet;
use pur_base::{NoMemory, OBJECTS, ObjectFact, Table};
use pyramid::Patch;
use std::alloc::Global;

/// Whether the medium of each fact is below the next one.
fn are_below(facts: &[ObjectFact], next: u64) -> bool
    ensures { IsTrue result ↔ All (λ f. f.medium.0 < next) facts.now }
{
    for fact in facts {
        if fact.medium.0 >= next {
            return false;
        }
    }
    true
}

/// Whether the medium of each fact of the patches is below the next one.
fn are_mediums_below(patches: &[Patch<ObjectFact>], next: u64) -> bool
    ensures { IsTrue result ↔ All (λ f. f.medium.0 < next) (facts_of patches.now) }
{
    for patch in patches {
        if !are_below(patch.facts(), next) {
            return false;
        }
    }
    true
}

/// Whether no two objects have one name.
fn are_names_distinct(alloc: Global, objects: &[ObjectFact]) -> Result<bool, NoMemory>
    ensures { IfOk result (λ b. IsTrue b ↔ AreNamesDistinct objects.now) }
{
    let mut names = IndexSet::with_capacity(alloc, objects.len())?;
    for object in objects {
        if !names.insert(object.name)? {
            return Ok(false);
        }
    }
    Ok(true)
}

/// Whether the object's medium is elided neither in the table of mediums nor in that of addresses.
fn is_kept(x: &ObjectFact, elided: &Elided) -> bool
    ensures { IsTrue result ↔ IsKept elided.now x.now }
{
    !elided.is_elided(Table::Medium, x.medium.0) && !elided.is_elided(Table::Address, x.medium.0)
}

/// The same of each object.
fn are_kept(objects: &[ObjectFact], elided: &Elided) -> bool
    ensures { IsTrue result ↔ All (IsKept elided.now) objects.now }
{
    for x in objects {
        if !is_kept(x, elided) {
            return false;
        }
    }
    true
}

/// Whether the objects pass, as lists of them say it.
fn are_objects_listed(
    alloc: Global,
    next: &NextNumbers,
    elided: &Elided,
    patches: &[Patch<ObjectFact>],
    shown: &[ObjectFact],
) -> Result<bool, NoMemory>
    ensures { IfOk result (λ b. IsTrue b ↔ AreObjectsListed next.now elided.now (facts_of patches.now) shown.now) }
{
    let names = are_names_distinct(alloc, shown)?;
    let owned = own_their_mediums(alloc, shown)?;
    Ok(
        shown.len() <= OBJECTS
            && are_ids_below(patches, next.object)
            && are_mediums_below(patches, next.medium)
            && names
            && owned
            && are_kept(shown, elided),
    )
}

/// Whether the objects are sound, of which these are the visible ones.
pub fn are_objects_sound(
    alloc: Global,
    next: &NextNumbers,
    elided: &Elided,
    patches: &[Patch<ObjectFact>],
    shown: &[ObjectFact],
) -> Result<bool, NoMemory>
    requires { next.now.object ≤ 2 ^ 64 }
    ensures { IfOk result (λ b. (facts : Facts) → facts.objects ≡ facts_of patches.now → AreElidedBy facts.elisions elided.now
        → IsShown object_key number never facts.objects (is_elided facts.elisions table.Object) shown.now
        → IsTrue b ↔ AreObjectsRight next.now facts) }
{
    are_objects_listed(alloc, next, elided, patches, shown)
}
