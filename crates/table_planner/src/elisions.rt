ghost use Rattle.std.specs.Prelude.{◌≡◌, ◌⊎◌, ◌↔◌, [], ◌++◌, Contains, IfOk, OnOk};
ghost use Rattle.pur_base.specs.Facts.{elision_key};
ghost use Rattle.pur_base.specs.declared.facts.ElisionFact.{ElisionFact};
ghost use Rattle.pyramid.specs.Layers.{patch_facts, AreDistinct, IsFlushed};

use array_memory::Memory;
use pur_base::{ElisionFact, NoMemory};
use pyramid::{Patch, Pyramid};
use std::alloc::Global;

/// Takes facts into a table of which nothing is flushed.
fn insert_each(facts: &[ElisionFact], table: &mut Pyramid<ElisionFact>) -> Result<(), NoMemory>
    requires patches { table.old.patches ≡ [] }
    requires distinct { AreDistinct (λ f. f.seq.0) (table.old.unflushed ++ facts.now) }
    ensures patches { table.new.patches ≡ [] }
    ensures facts { OnOk result ((f : ElisionFact) → Contains table.new.unflushed f ↔ (Contains table.old.unflushed f ⊎ Contains facts.now f)) }
{
    for fact in facts {
        table.insert(*fact)?;
    }
    Ok(())
}

/// The patch of the unflushed elisions and of these: of each key the newest.
pub(crate) fn newest_elisions(
    alloc: Global,
    memory: &Memory,
    added: &[ElisionFact],
) -> Result<Option<Patch<ElisionFact>>, NoMemory>
    requires { AreDistinct (λ f. f.seq.0) (memory.now.memory.tables.elisions.unflushed ++ added.now) }
    ensures { IfOk result (λ patch. IsFlushed elision_key (λ f. f.seq.0) (memory.now.memory.tables.elisions.unflushed ++ added.now) (patch_facts patch)) }
{
    let mut all = Pyramid::new(alloc, added.len())?;
    insert_each(memory.elisions().unflushed(), &mut all)?;
    insert_each(added, &mut all)?;
    let patch = all.newest_unflushed(alloc)?;
    Ok(patch)
}
