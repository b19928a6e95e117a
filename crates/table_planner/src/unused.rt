ghost use Rattle.std.specs.Prelude.{◌≡◌, ◌⊎◌, ◌↔◌, ℕ, ◌+◌, ◌*◌, ◌<◌, ◌^◌, List, ◌++◌, length, Contains, IfOk, IsTrue, OnOk};
ghost use Rattle.pur_base.specs.Visible.{is_within};
ghost use Rattle.pur_base.specs.declared.facts.ElisionFact.{ElisionFact};
ghost use Rattle.pur_base.specs.declared.request.Table.{Table};
ghost use Rattle.elision.specs.Ranges.{ranges_of};
ghost use Rattle.fact_codec.specs.declared.limits.TheConstants.{NUMBER_LIMIT};
ghost use Rattle.memory_spec.specs.Memory.{IsSound};
ghost use Rattle.table_plan.specs.Eliding.{segment_items, AreElisionsOf};
ghost use Rattle.array_memory.specs.Eliding.{IsElidingOf};
ghost use Rattle.command_spec.specs.declared.limits.TheConstants.{ELIDED_MEDIUMS, ELIDED_SEGMENTS};

use crate::unreached::unreached_mediums;
use array_memory::{Eliding, Memory, are_apart};
use command_spec::LOG_ROOM;
use elision::Elided;
use pur_base::{ElisionFact, NoMemory, Table};
use std::alloc::Global;
use table_plan::{copied, elide_all, medium_items, segment_items};

/// Elides these segments too: their elisions go behind these facts. Numbers rise from that one.
fn elide_segments(
    alloc: Global,
    elided: &mut Elided,
    facts: &mut Vec<ElisionFact>,
    ids: &[u64],
    number: u64,
) -> Result<(), NoMemory>
    requires { number + length ids.now < 2 ^ 64 }
    ensures facts { OnOk result ((more : List ElisionFact) × (facts.new.items ≡ facts.old.items ++ more)
        × AreElisionsOf (λ t i. IsTrue (is_within (ranges_of elided.old t) i)) number (segment_items ids.now) more) }
    ensures ids { OnOk result ((t : Table) (i : ℕ) → IsTrue (is_within (ranges_of elided.new t) i) ↔ (IsTrue (is_within (ranges_of elided.old t) i) ⊎ Contains (segment_items ids.now) (t, i))) }
{
    let items = segment_items(alloc, ids)?;
    let more = elide_all(alloc, elided, &items, number)?;
    facts.extend_from_slice(&more)?;
    Ok(())
}

/// What a checkpoint would elide: the mediums that no object reaches, by ascending id, the 2,048 of the lowest ids at most, and then, by ascending id,
/// the visible data segments that no visible address names any more, the 1,024 of the lowest ids at most.
/// There is room then for the ids of objects that the commands of a whole log elide.
/// It fails for want of memory only.
pub fn eliding(alloc: Global, memory: &Memory) -> Result<Eliding, NoMemory>
    requires sound { IsSound memory.now.memory }
    requires numbers { memory.now.memory.next.sequence + 2 * ELIDED_MEDIUMS + ELIDED_SEGMENTS < NUMBER_LIMIT }
    ensures { IfOk result (IsElidingOf memory.now) }
{
    memory.kept();
    let first = memory.next().sequence;
    let mediums = unreached_mediums(alloc, memory)?;
    let items = medium_items(alloc, &mediums)?;
    let mut elided = copied(alloc, memory.elided())?;
    let mut facts = elide_all(alloc, &mut elided, &items, first)?;
    let looked = memory.looked(alloc, &elided)?;
    let number = first + facts.len() as u64;
    elide_segments(alloc, &mut elided, &mut facts, &looked.ids, number)?;
    elided.reserve_objects(LOG_ROOM.ranges)?;
    are_apart(&elided);
    Ok(Eliding {
        mediums,
        segments: looked.ids,
        facts,
        elided,
        witnesses: looked.witnesses,
    })
}
