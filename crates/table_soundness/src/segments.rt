ghost use Rattle.std.specs.Prelude.{◌≡◌, ◌≢◌, ◌++◌, ◌↔◌, IsTrue, IfOk, All, AllPairs, map};
ghost use Rattle.std.specs.List.{flat_map};
ghost use Rattle.pur_base.specs.Facts.{Facts, segment_key, never};
ghost use Rattle.pur_base.specs.Visible.{is_elided};
ghost use Rattle.pur_base.specs.declared.request.Table.TheVariants as table;
ghost use Rattle.pur_base.specs.declared.facts.AnyFact.TheVariants as any;
ghost use Rattle.pur_base.specs.declared.limits.TheConstants.{SEGMENT_SHARDS};
ghost use Rattle.boot_codec.specs.Record.{AscendFrom, IsBootRecord};
ghost use Rattle.fact_codec.specs.Fact.{IsFact};
ghost use Rattle.pyramid.specs.Layers.{facts_of};
ghost use Rattle.pyramid.specs.Shown.{IsShown};
ghost use Rattle.segment_table.specs.Segments.{number};
ghost use Rattle.table_soundness.specs.Places.{code_of};
ghost use Rattle.table_soundness.specs.Items.{AreSegmentsRight, AreSegmentsListed};

use crate::distinct::are_distinct;
use crate::ids::are_ids_below;
use crate::named::{are_named_apart, are_named_below, named_segments};
use crate::places::{ascend, push_named, push_visible};
use boot_codec::{BootRecord, PatchSegment};
use pur_base::{NoMemory, SegmentFact};
use pyramid::Patch;
use std::alloc::Global;

/// Whether each segment lies on data units of the shelf on ascending slots.
fn are_all_placed(shown: &[SegmentFact], slots: u8, units: u16) -> bool
    ensures { IsTrue result ↔ All (λ d. AscendFrom slots units 0 d.places) shown.now }
{
    for segment in shown {
        if !ascend(&segment.places, slots, units) {
            return false;
        }
    }
    true
}

/// Whether no unit stands there twice.
fn are_units_apart(
    alloc: Global,
    named: &[PatchSegment],
    shown: &[SegmentFact],
) -> Result<bool, NoMemory>
    ensures { IfOk result (λ b. IsTrue b ↔ AllPairs (λ m n. m ≢ n) (map code_of (flat_map (λ s. s.places) named.now) ++ map code_of (flat_map (λ d. d.places) shown.now))) }
{
    let mut codes = Vec::new(alloc);
    push_named(&mut codes, named)?;
    push_visible(&mut codes, shown)?;
    Ok(are_distinct(alloc, &mut codes))
}

/// Whether the segments pass, as lists of them say it.
fn are_segments_listed(
    alloc: Global,
    slots: u8,
    units: u16,
    boot: &BootRecord,
    patches: &[Patch<SegmentFact>],
    shown: &[SegmentFact],
) -> Result<bool, NoMemory>
    ensures { IfOk result (λ b. IsTrue b ↔ AreSegmentsListed (record { slots = slots; units = units }) boot.now (facts_of patches.now) shown.now) }
{
    let named = named_segments(alloc, &boot.patches)?;
    let distinct = are_named_apart(alloc, &named)?;
    let apart = are_units_apart(alloc, &named, shown)?;
    Ok(
        are_ids_below(patches, boot.next.segment)
            && are_named_below(&named, boot.next.patch_segment)
            && distinct
            && are_all_placed(shown, slots, units)
            && apart,
    )
}

/// Whether the segments are sound, of which these are the visible ones.
pub fn are_segments_sound(
    alloc: Global,
    slots: u8,
    units: u16,
    boot: &BootRecord,
    patches: &[Patch<SegmentFact>],
    shown: &[SegmentFact],
) -> Result<bool, NoMemory>
    requires boot { IsBootRecord boot.now }
    requires facts { All (λ f. IsFact (any.Segment f)) (facts_of patches.now) }
    ensures { IfOk result (λ b. (facts : Facts) → facts.segments ≡ facts_of patches.now → IsShown segment_key number never facts.segments (is_elided facts.elisions table.Segment) shown.now
        → IsTrue b ↔ AreSegmentsRight (record { slots = slots; units = units }) boot.now facts) }
{
    are_segments_listed(alloc, slots, units, boot, patches, shown)
}
