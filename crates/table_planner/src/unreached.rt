ghost use Rattle.std.specs.Prelude.{◌≡◌, map, IfOk};
ghost use Rattle.memory_spec.specs.Memory.{IsSound};
ghost use Rattle.array_memory.specs.Eliding.{AreLowestUnreachedOf};

use array_memory::Memory;
use command_spec::ELIDED_MEDIUMS;
use medium_table::unreached;
use pur_base::{MediumId, NoMemory, Table};
use std::alloc::Global;

/// The mediums of the visible objects, in order of creation.
fn object_mediums(alloc: Global, memory: &Memory) -> Result<Vec<MediumId>, NoMemory>
    ensures { IfOk result (λ v. v.items ≡ map (λ x. x.medium) memory.now.objects) }
{
    let count = memory.len();
    let mut mediums = Vec::with_capacity(alloc, count)?;
    for i in 0..count {
        match memory.at(i) {
            Some(object) => mediums.push(object.medium)?,
            None => unreachable!(),
        }
    }
    Ok(mediums)
}

/// The mediums that no visible object reaches and whose ranges aren't elided, by ascending id, the 2,048 of the lowest ids at most.
pub(crate) fn unreached_mediums(alloc: Global, memory: &Memory) -> Result<Vec<u64>, NoMemory>
    requires { IsSound memory.now.memory }
    ensures { IfOk result (λ v. AreLowestUnreachedOf memory.now.memory v.items) }
{
    memory.kept();
    let elided = memory.elided().ranges(Table::Medium);
    let from = object_mediums(alloc, memory)?;
    let reached = memory.mediums().reachable(alloc, &from, elided)?;
    let ids = unreached(
        alloc,
        elided,
        &reached,
        memory.next().medium,
        ELIDED_MEDIUMS,
    )?;
    Ok(ids)
}
