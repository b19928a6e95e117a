// The patches of the next boot record, where two of a table stand as one.
ghost use Rattle.std.specs.Prelude.{◌≡◌, ◌+◌, ◌^◌, ◌<◌, ◌≤◌, ◌++◌, true, false, length, take, drop, IfOk, OnOk, IfSome, IfNone};
ghost use Rattle.pur_base.specs.Tags.{tag_of};
ghost use Rattle.boot_codec.specs.Record.{patch_segments};
ghost use Rattle.boot_codec.specs.declared.limits.TheConstants.{PATCH_SEGMENTS};
ghost use Rattle.memory_spec.specs.Merging.{AreJoined, has_pair, pair_segments, place_in};
ghost use Rattle.record_tables.specs.Joined.{JoinedAreLawful, JoinedAreNamed, JoinedSegmentsAreSound, MergedIsNamed, PairsAreNamed};
ghost use Rattle.record_tables.specs.Patches.{new_patch};

use crate::patches::{NextPatches, push_new};
use boot_codec::Patches;
use pur_base::{NoMemory, Places, Table};
use std::alloc::Global;

/// A table's patch of an index and the next one, as a record names them.
#[derive(Clone, Copy, PartialEq, Eq)]
pub struct Pair {
    /// The place of the first of the two among all patches.
    pub place: usize,
    /// How many segments the two have.
    pub segments: usize,
}

/// A table's patch of that index and the next one, or `None` where the table has no such two.
pub fn pair_of(patches: &Patches, table: Table, index: u64) -> Option<Pair>
    requires { patch_segments patches.now ≤ PATCH_SEGMENTS }
    ensures some { IfSome result (λ p. (has_pair table index patches.now ≡ true) × (p.place ≡ place_in table index patches.now) × (p.segments ≡ pair_segments table index patches.now)) }
    ensures none { IfNone result (has_pair table index patches.now ≡ false) }
{
    let tag = table.tag();
    let next = index.saturating_add(1);
    let (mut lower, mut own, mut segments) = (0, 0, 0);
    for at in 0..patches.len() {
        let patch = patches.at(at);
        if patch.tag < tag {
            lower += 1;
        } else if patch.tag == tag {
            if own == index || own == next {
                segments += patch.segments.as_slice().len();
            }
            own += 1;
        }
    }
    if own <= next {
        return None;
    }
    let place = lower + index as usize;
    Some(Pair { place, segments })
}

/// Adds those of some patches that stand from one place up to another.
fn push_range(
    patches: &mut Patches,
    from: &Patches,
    start: usize,
    end: usize,
) -> Result<(), NoMemory>
    requires order { start ≤ end }
    requires within { end ≤ length from.now }
    ensures { OnOk result (patches.new ≡ patches.old ++ drop start (take end from.now)) }
{
    for place in start..end {
        patches.push(&from.at(place))?;
    }
    Ok(())
}

/// The patches of the next boot record: those of the last one, where one of so many facts stands in the place of that at `place` and the next one, or none where it has no fact.
/// Its segments have ids from `first` on, and these units. It fails for want of memory only.
pub fn joined_patches(
    alloc: Global,
    was: &Patches,
    place: usize,
    table: Table,
    facts: u32,
    first: u64,
    units: &[Places],
) -> Result<NextPatches, NoMemory>
    requires there { place + 1 < length was.now }
    requires ids { first + length units.now < 2 ^ 64 }
    ensures added { IfOk result (λ p. p.added ≡ new_patch (tag_of table) facts first units.now) }
    ensures all { IfOk result (λ p. AreJoined place was.now p.added p.all) }
{
    let mut added = Patches::new(alloc);
    push_new(alloc, &mut added, table.tag(), facts, first, units)?;
    let mut all = Patches::new(alloc);
    push_range(&mut all, was, 0, place)?;
    push_range(&mut all, &added, 0, added.len())?;
    push_range(&mut all, was, place + 2, was.len())?;
    Ok(NextPatches { all, added })
}

/// The next record may say what it says of its patches, and names those of memory.
pub fn joined_patches_are_lawful()
    ensures lawful { JoinedAreLawful }
    ensures pairs { PairsAreNamed }
    ensures named { JoinedAreNamed }
    ensures merged { MergedIsNamed }
    ensures sound { JoinedSegmentsAreSound }
{}
