ghost use Rattle.std.specs.Prelude.{◌≡◌, ◌<◌, ◌^◌, ◌↔◌, IsTrue, IfOk, All, AllPairs};
ghost use Rattle.pur_base.specs.Facts.{Facts, medium_key, object_key, is_empty_range, never};
ghost use Rattle.pur_base.specs.Says.{Ascends};
ghost use Rattle.pur_base.specs.Visible.{is_elided};
ghost use Rattle.pur_base.specs.declared.request.Table.TheVariants as table;
ghost use Rattle.pyramid.specs.Layers.{facts_of};
ghost use Rattle.pyramid.specs.Shown.{IsShown};
ghost use Rattle.std.specs.List.Sorted.{IsNonDecreasing};
ghost use Rattle.table_soundness.specs.Mediums.{AreMediumsListed, AreMediumsRight, EndsWithin, IsFrozen, IsRange, IsSmall, LeadsElsewhere, LiesBefore};

use crate::ids::are_ids_below;
use crate::last::last_of;
use crate::owned::{has, volume_mediums};
use pur_base::{MediumFact, NoMemory, ObjectFact};
use pyramid::Patch;
use std::alloc::Global;

/// Whether the second range begins behind the first, where both are of one medium.
fn lies_before(r: &MediumFact, s: &MediumFact) -> bool
    ensures { IsTrue result ↔ LiesBefore r.now s.now }
{
    r.medium.0 != s.medium.0 || r.end <= s.start
}

/// Whether ranges of one medium are disjoint.
fn are_disjoint(ranges: &[MediumFact]) -> bool
    requires ascends { Ascends medium_key ranges.now }
    requires ranges { All IsRange ranges.now }
    ensures { IsTrue result ↔ AllPairs LiesBefore ranges.now }
{
    let mut i = 1;
    while i < ranges.len() {
        if !lies_before(&ranges[i - 1], &ranges[i]) {
            return false;
        }
        i += 1;
    }
    true
}

/// Whether the ranges of the object's medium end within its sectors.
fn ends_within(object: &ObjectFact, ranges: &[MediumFact]) -> bool
    requires ascends { Ascends medium_key ranges.now }
    requires ranges { All IsRange ranges.now }
    requires disjoint { AllPairs LiesBefore ranges.now }
    ensures { IsTrue result ↔ EndsWithin ranges.now object.now }
{
    match last_of(ranges, object.medium.0) {
        Some(last) => last.end <= u64::from(object.sectors),
        None => true,
    }
}

/// The same of each object.
fn end_within(objects: &[ObjectFact], ranges: &[MediumFact]) -> bool
    requires ascends { Ascends medium_key ranges.now }
    requires ranges { All IsRange ranges.now }
    requires disjoint { AllPairs LiesBefore ranges.now }
    ensures { IsTrue result ↔ All (EndsWithin ranges.now) objects.now }
{
    for object in objects {
        if !ends_within(object, ranges) {
            return false;
        }
    }
    true
}

/// Whether the range leads to none of the mediums, which are in order.
fn leads_elsewhere(range: &MediumFact, mediums: &[u64]) -> bool
    requires { IsNonDecreasing mediums.now }
    ensures { IsTrue result ↔ LeadsElsewhere mediums.now range.now }
{
    !has(mediums, range.target.0)
}

/// The same of each range.
fn lead_elsewhere(ranges: &[MediumFact], mediums: &[u64]) -> bool
    requires { IsNonDecreasing mediums.now }
    ensures { IsTrue result ↔ All (LeadsElsewhere mediums.now) ranges.now }
{
    for range in ranges {
        if !leads_elsewhere(range, mediums) {
            return false;
        }
    }
    true
}

/// Whether no range leads to the medium of a volume.
fn are_frozen(
    alloc: Global,
    objects: &[ObjectFact],
    ranges: &[MediumFact],
) -> Result<bool, NoMemory>
    ensures { IfOk result (λ b. IsTrue b ↔ All (IsFrozen objects.now) ranges.now) }
{
    let mut mediums = volume_mediums(alloc, objects)?;
    mediums.sort_unstable();
    Ok(lead_elsewhere(ranges, &mediums))
}

/// Whether the ranges of mediums pass, as lists of them say it.
fn are_mediums_listed(
    alloc: Global,
    next_medium: u64,
    patches: &[Patch<MediumFact>],
    shown: &[MediumFact],
    objects: &[ObjectFact],
) -> Result<bool, NoMemory>
    requires ascends { Ascends medium_key shown.now }
    requires ranges { All IsRange shown.now }
    requires facts { All IsSmall (facts_of patches.now) }
    ensures { IfOk result (λ b. IsTrue b ↔ AreMediumsListed next_medium (facts_of patches.now) shown.now objects.now) }
{
    let frozen = are_frozen(alloc, objects, shown)?;
    Ok(
        are_ids_below(patches, next_medium)
            && frozen
            && are_disjoint(shown)
            && end_within(objects, shown),
    )
}

/// Whether the ranges of mediums are sound, of which these are the visible ones.
pub fn are_mediums_sound(
    alloc: Global,
    next_medium: u64,
    patches: &[Patch<MediumFact>],
    shown: &[MediumFact],
    objects: &[ObjectFact],
) -> Result<bool, NoMemory>
    requires ascends { Ascends medium_key shown.now }
    requires ranges { All IsRange shown.now }
    requires facts { All IsSmall (facts_of patches.now) }
    ensures { IfOk result (λ b. (facts : Facts) → facts.mediums ≡ facts_of patches.now → All (λ f. f.object.0 < 2 ^ 64) facts.objects
        → IsShown medium_key (λ f. f.seq.0) is_empty_range facts.mediums (is_elided facts.elisions table.Medium) shown.now
        → IsShown object_key (λ f. f.seq.0) never facts.objects (is_elided facts.elisions table.Object) objects.now
        → IsTrue b ↔ AreMediumsRight next_medium facts) }
{
    are_mediums_listed(alloc, next_medium, patches, shown, objects)
}
