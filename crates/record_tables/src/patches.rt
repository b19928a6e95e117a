ghost use Rattle.std.specs.Prelude.{◌≡◌, ◌+◌, ◌^◌, ◌<◌, ◌++◌, length, IfOk, OnOk};
ghost use Rattle.record_tables.specs.Patches.{segments_of, segments_from, new_patch, added_patches, of_tag, by_tag, FitRecord};

use crate::segments::{counts_of, segments_for};
use array_memory::Counts;
use boot_codec::{Patch, PatchSegment, Patches, Segments, TAG_MAX};
use pur_base::{NoMemory, Places};
use std::alloc::Global;

/// The patches of the next boot record.
#[derive(Drop)]
pub struct NextPatches {
    /// All of them, by tag, and of each tag the new one last.
    pub all: Patches,
    /// The new ones, by tag.
    pub added: Patches,
}

/// The patches of the next boot record: those of the last one, and for each count above 0 a new one.
/// The segments of the new ones have ids from `first` on, and these units in order. It fails for want of memory only.
pub fn next_patches(
    alloc: Global,
    was: &Patches,
    counts: &Counts,
    first: u64,
    units: &[Places],
) -> Result<NextPatches, NoMemory>
    requires counts { FitRecord counts.now }
    requires room { segments_of counts.now ≡ length units.now }
    requires ids { first + length units.now < 2 ^ 64 }
    ensures added { IfOk result (λ p. p.added ≡ added_patches counts.now first units.now) }
    ensures all { IfOk result (λ p. p.all ≡ by_tag was.now p.added) }
{
    let added = added_patches(alloc, counts, first, units)?;
    let all = by_tag(alloc, was, &added)?;
    Ok(NextPatches { all, added })
}

/// A segment on each of these units, with ids from `first` on.
fn segments_from(alloc: Global, first: u64, units: &[Places]) -> Result<Vec<PatchSegment>, NoMemory>
    requires { first + length units.now < 2 ^ 64 }
    ensures { IfOk result (λ v. v.items ≡ segments_from first units.now) }
{
    let mut segments = Vec::with_capacity(alloc, units.len())?;
    for (i, places) in units.iter().enumerate() {
        segments.push(PatchSegment {
            id: first + i as u64,
            places: *places,
        })?;
    }
    Ok(segments)
}

/// Adds the new patch of a table, if it has new facts.
pub(crate) fn push_new(
    alloc: Global,
    patches: &mut Patches,
    tag: u8,
    facts: u32,
    first: u64,
    units: &[Places],
) -> Result<(), NoMemory>
    requires { first + length units.now < 2 ^ 64 }
    ensures { OnOk result (patches.new ≡ patches.old ++ new_patch tag facts first units.now) }
{
    if facts == 0 {
        return Ok(());
    }
    let segments = segments_from(alloc, first, units)?;
    patches.push(&Patch {
        tag,
        facts,
        segments: Segments::new(&segments),
    })?;
    Ok(())
}

/// The new patches of all tables.
fn added_patches(
    alloc: Global,
    counts: &Counts,
    first: u64,
    units: &[Places],
) -> Result<Patches, NoMemory>
    requires counts { FitRecord counts.now }
    requires room { segments_of counts.now ≡ length units.now }
    requires ids { first + length units.now < 2 ^ 64 }
    ensures { IfOk result (λ p. p ≡ added_patches counts.now first units.now) }
{
    let mut added = Patches::new(alloc);
    let mut used = 0;
    for (table, facts) in counts_of(counts).iter().enumerate() {
        let end = used + segments_for(*facts);
        push_new(
            alloc,
            &mut added,
            table as u8 + 1,
            *facts as u32,
            first + used as u64,
            &units[used..end],
        )?;
        used = end;
    }
    Ok(added)
}

/// Adds those of some patches that have this tag.
fn push_of_tag(patches: &mut Patches, from: &Patches, tag: u8) -> Result<(), NoMemory>
    ensures { OnOk result (patches.new ≡ patches.old ++ of_tag tag from.now) }
{
    for index in 0..from.len() {
        let patch = from.at(index);
        if patch.tag == tag {
            patches.push(&patch)?;
        }
    }
    Ok(())
}

/// Of each table the old patches, and behind them the new ones.
fn by_tag(alloc: Global, was: &Patches, added: &Patches) -> Result<Patches, NoMemory>
    ensures { IfOk result (λ p. p ≡ by_tag was.now added.now) }
{
    let mut all = Patches::new(alloc);
    for tag in 1..TAG_MAX + 1 {
        push_of_tag(&mut all, was, tag)?;
        push_of_tag(&mut all, added, tag)?;
    }
    Ok(all)
}
