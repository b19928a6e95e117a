ghost use Rattle.std.specs.Prelude.{◌≡◌, ◌+◌, ◌<◌, ◌≤◌, ◌++◌, Contains, IfOk, length};
ghost use Rattle.std.specs.Int.{div_ceil};
ghost use Rattle.pur_base.specs.Facts.{segment_key};
ghost use Rattle.pur_base.specs.Plain.{Array};
ghost use Rattle.pur_base.specs.Says.{Ascends};
ghost use Rattle.pyramid.specs.Layers.{AreDistinct, facts_of, patch_facts};
ghost use Rattle.table_plan.specs.Segments.{segments_from};
ghost use Rattle.memory_spec.specs.Memory.{Contents, IsSound, ReadsAs};
ghost use Rattle.table_plan.specs.Planned.{AreStored, IsPlanned};
ghost use Rattle.array_memory.specs.Eliding.{eliding_by, IsElidingOf};
ghost use Rattle.array_memory.specs.Plan.{after_plan, next_past, placed_addresses, units_of, with_patch_rooms, AreLeftFor, AreUnits, HasNoLessPatchRoom, IsPlacingOf, IsPlanFor, IsPlanOf};
ghost use Rattle.table_planner.specs.Patches.{AreNewPatches};

use crate::elisions::newest_elisions;
use array_memory::{Eliding, Memory, Placing, Plan};
use boot_codec::NextNumbers;
use command_spec::STAGED_SECTORS;
use pur_base::{
    AddressFact, ElisionFact, MediumFact, NoMemory, ObjectFact, Places, SEGMENT_SECTORS,
    SegmentFact,
};
use pyramid::Patch;
use std::alloc::Global;
use table_plan::{
    Witness, facts_of, flagged, flags, new_segments, new_witnesses, places, repointed_facts,
    with_found,
};

/// The new patch of each table, if there is one.
#[derive(Drop)]
pub struct NewPatches {
    pub objects: Option<Patch<ObjectFact>>,
    pub mediums: Option<Patch<MediumFact>>,
    pub addresses: Option<Patch<AddressFact>>,
    pub segments: Option<Patch<SegmentFact>>,
    pub elisions: Option<Patch<ElisionFact>>,
}

/// What is made for a plan: the new segments, the new patches, and the witnesses that are kept then.
#[derive(Drop)]
struct Made {
    segments: Vec<SegmentFact>,
    patches: NewPatches,
    witnesses: Vec<Witness>,
}

/// What a checkpoint would place: the staged sectors that a newest unflushed address names. It fails for want of memory only.
pub fn placing(alloc: Global, memory: &Memory) -> Result<Placing, NoMemory>
    requires { length memory.now.memory.staged ≤ STAGED_SECTORS }
    ensures { IfOk result (IsPlacingOf memory.now.memory) }
{
    let newest = memory.addresses().facts.newest_unflushed(alloc)?;
    let flags = flags(alloc, facts_of(&newest), memory.staged_len())?;
    let order = flagged(alloc, &flags)?;
    Ok(Placing {
        order,
        flags,
        newest,
    })
}

/// The patch of the newest addresses, where the sectors that they name are placed.
fn placed_addresses(
    alloc: Global,
    memory: &Memory,
    placing: &Placing,
) -> Result<Option<Patch<AddressFact>>, NoMemory>
    requires sound { IsSound memory.now.memory }
    requires placing { IsPlacingOf memory.now.memory placing.now }
    requires few { length memory.now.memory.staged ≤ STAGED_SECTORS }
    ensures { IfOk result (λ patch. patch_facts patch ≡ placed_addresses memory.now.memory placing.now) }
{
    let places = places(alloc, &placing.flags, memory.next().segment)?;
    let facts = repointed_facts(alloc, facts_of(&placing.newest), &places)?;
    Ok(Patch::from_facts(facts))
}

/// The next numbers after so many elisions and so many new segments.
fn next_past(next: NextNumbers, elisions: usize, count: usize) -> NextNumbers
    requires { AreLeftFor (record next { sequence = next.sequence + elisions }) count }
    ensures { result ≡ next_past (record next { sequence = next.sequence + elisions }) count }
{
    NextNumbers {
        segment: next.segment + count as u64,
        sequence: next.sequence + elisions as u64 + count as u64,
        ..next
    }
}

/// The new patch of each table, with these new segments among the segments.
fn new_patches(
    alloc: Global,
    memory: &Memory,
    eliding: &Eliding,
    placing: &Placing,
    segments: &[SegmentFact],
) -> Result<NewPatches, NoMemory>
    requires sound { IsSound memory.now.memory }
    requires few { length memory.now.memory.staged ≤ STAGED_SECTORS }
    requires placing { IsPlacingOf memory.now.memory placing.now }
    requires elisions { AreDistinct (λ f. f.seq.0) (memory.now.memory.tables.elisions.unflushed ++ eliding.now.facts.items) }
    requires ascends { Ascends segment_key segments.now }
    requires last { (f d : SegmentFact) → Contains memory.now.memory.tables.segments.unflushed f → Contains segments.now d → f.segment.0 < d.segment.0 }
    ensures { IfOk result (AreNewPatches memory.now.memory placing.now eliding.now.facts.items segments.now) }
{
    let objects = memory.objects().facts().newest_unflushed(alloc)?;
    let mediums = memory.mediums().facts.newest_unflushed(alloc)?;
    let addresses = placed_addresses(alloc, memory, placing)?;
    let segments = memory.segment_table().newest_with(alloc, segments)?;
    let elisions = newest_elisions(alloc, memory, &eliding.facts)?;
    Ok(NewPatches {
        objects,
        mediums,
        addresses,
        segments,
        elisions,
    })
}

/// The witnesses of the segments behind a checkpoint: those that were looked at, and for each of so many new segments, from that id on, the last of these addresses that names it.
fn witnesses_behind(
    alloc: Global,
    eliding: &Eliding,
    first: u64,
    count: usize,
    addresses: &[AddressFact],
) -> Result<Vec<Witness>, NoMemory> {
    let found = new_witnesses(alloc, first, count, addresses)?;
    let witnesses = with_found(alloc, &eliding.witnesses, &found)?;
    Ok(witnesses)
}

/// What a plan holds beside what it elides and places, and the next numbers.
fn made_for_plan(
    alloc: Global,
    memory: &Memory,
    eliding: &Eliding,
    placing: &Placing,
    units: &[Places],
) -> Result<Made, NoMemory>
    requires sound { IsSound memory.now.memory }
    requires few { length memory.now.memory.staged ≤ STAGED_SECTORS }
    requires eliding { IsElidingOf memory.now eliding.now }
    requires placing { IsPlacingOf memory.now.memory placing.now }
    requires wanted { div_ceil (length placing.now.order.items) SEGMENT_SECTORS ≡ length units.now }
    requires left { AreLeftFor (eliding_by memory.now.memory eliding.now).next (length units.now) }
    ensures segments { IfOk result (λ m. m.segments.items ≡ segments_from memory.now.memory.next.segment (memory.now.memory.next.sequence + length eliding.now.facts.items) (length placing.now.order.items) units.now) }
    ensures patches { IfOk result (λ m. AreNewPatches memory.now.memory placing.now eliding.now.facts.items m.segments.items m.patches) }
{
    memory.kept();
    let next = memory.next();
    let segments = new_segments(
        alloc,
        next.segment,
        next.sequence + eliding.facts.len() as u64,
        placing.order.len(),
        units,
    )?;
    let patches = new_patches(alloc, memory, eliding, placing, &segments)?;
    let addresses = facts_of(&patches.addresses);
    let witnesses = witnesses_behind(alloc, eliding, next.segment, units.len(), addresses)?;
    Ok(Made {
        segments,
        patches,
        witnesses,
    })
}

/// What is planned, before there is room for it.
fn planned(
    alloc: Global,
    memory: &Memory,
    eliding: Eliding,
    placing: Placing,
    units: &[Places],
) -> Result<Plan, NoMemory>
    requires sound { IsSound memory.now.memory }
    requires stored { AreStored (facts_of memory.now.memory.tables.addresses.patches) }
    requires few { length memory.now.memory.staged ≤ STAGED_SECTORS }
    requires eliding { IsElidingOf memory.now eliding }
    requires placing { IsPlacingOf memory.now.memory placing }
    requires wanted { div_ceil (length placing.order.items) SEGMENT_SECTORS ≡ length units.now }
    requires places { AreUnits units.now }
    requires left { AreLeftFor (eliding_by memory.now.memory eliding).next (length units.now) }
    ensures plan { IfOk result (IsPlanFor (eliding_by memory.now.memory eliding)) }
    ensures next { IfOk result (λ p. p.next ≡ next_past (eliding_by memory.now.memory eliding).next (length units.now)) }
    ensures eliding { IfOk result (λ p. p.eliding ≡ eliding) }
    ensures placing { IfOk result (λ p. p.placing ≡ placing) }
    ensures units { IfOk result (λ p. units_of p ≡ units.now) }
{
    memory.layered();
    let made = made_for_plan(alloc, memory, &eliding, &placing, units)?;
    Ok(Plan {
        next: next_past(memory.next(), eliding.facts.len(), units.len()),
        eliding,
        placing,
        segments: made.segments,
        objects: made.patches.objects,
        mediums: made.patches.mediums,
        addresses: made.patches.addresses,
        segment_facts: made.patches.segments,
        elisions: made.patches.elisions,
        witnesses: made.witnesses,
    })
}

/// The plan of a checkpoint that elides these mediums and segments, with these units for its new segments: what it writes, and all that memory is afterwards.
/// Memory reads as before, and is the same but for room, whatever is answered. It fails for want of memory only.
pub fn plan(
    alloc: Global,
    memory: &mut Memory,
    eliding: Eliding,
    placing: Placing,
    units: &[Places],
) -> Result<Plan, NoMemory>
    requires sound { IsSound memory.old.memory }
    requires stored { AreStored (facts_of memory.old.memory.tables.addresses.patches) }
    requires few { length memory.old.memory.staged ≤ STAGED_SECTORS }
    requires eliding { IsElidingOf memory.old eliding }
    requires placing { IsPlacingOf memory.old.memory placing }
    requires wanted { div_ceil (length placing.order.items) SEGMENT_SECTORS ≡ length units.now }
    requires places { AreUnits units.now }
    requires left { AreLeftFor (eliding_by memory.old.memory eliding).next (length units.now) }
    ensures plan { IfOk result (IsPlanOf memory.new) }
    ensures planned { IfOk result (λ p. IsPlanned (eliding_by memory.old.memory eliding) (after_plan memory.old.memory p) p.placing.flags.items (patch_facts p.placing.newest) units.now) }
    ensures eliding { IfOk result (λ p. p.eliding ≡ eliding) }
    ensures placing { IfOk result (λ p. p.placing ≡ placing) }
    ensures units { IfOk result (λ p. units_of p ≡ units.now) }
    ensures next { IfOk result (λ p. p.next ≡ next_past (eliding_by memory.old.memory eliding).next (length units.now)) }
    ensures room { HasNoLessPatchRoom memory.old memory.new }
    ensures rest { memory.new ≡ with_patch_rooms memory.old memory.new }
    ensures reads { (contents : Contents) (array : Array) → ReadsAs contents memory.old.memory array → ReadsAs contents memory.new.memory array }
{
    let plan = planned(alloc, memory, eliding, placing, units)?;
    memory.reserve_for_plan(units.len())?;
    Ok(plan)
}
