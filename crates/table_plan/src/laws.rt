// What is told of a plan and of a merged patch. Functions without code promise, as their contracts, laws of these definitions.
ghost use Rattle.std.specs.Prelude.{ℕ, ◌≤◌, length};
ghost use Rattle.pur_base.specs.Tags.{tag_of};
ghost use Rattle.pyramid.specs.Layers.{facts_of};
ghost use Rattle.memory_spec.specs.Memory.{IsSound, Memory};
ghost use Rattle.table_plan.specs.Patches.{ArePatchFacts};
ghost use Rattle.table_plan.specs.Planned.{AreStored, ElidedIsCheckpointed, PlannedIsCheckpointed};
ghost use Rattle.memory_spec.specs.Merging.{IsMergedAt};
ghost use Rattle.table_plan.specs.declared.merged.Merged.{Merged};
ghost use Rattle.table_plan.specs.Merging.{merged_facts, pair_facts, table_of, tables_with, IsMergedOf};
ghost use Rattle.table_plan.specs.Eliding.{ItemsAreElided, ItemsMayBeElided};

/// Memory that is made of these lists is memory after a checkpoint, and so is it where segments were elided first.
pub fn a_plan_is_a_checkpoint()
    ensures planned { PlannedIsCheckpointed }
    ensures elided { ElidedIsCheckpointed }
{}

/// Mediums that no object reaches, and segments that no visible address names then, may be elided, and nothing else is elided by that.
pub fn laws_of_elisions()
    ensures allowed { ItemsMayBeElided }
    ensures elided { ItemsAreElided }
{}

/// A patch that is made of two is a merge of memory, and may be written: facts of its table in order of keys, no more than the two have.
pub fn merges_are_lawful()
    ensures merges { (m : Memory) (i : ℕ) (p : Merged) → IsMergedOf m i p → IsMergedAt (table_of p) i m (record m { tables = tables_with m.tables i p }) }
    ensures facts { (m : Memory) (i : ℕ) (p : Merged) → IsSound m → AreStored (facts_of m.tables.addresses.patches) → IsMergedOf m i p → ArePatchFacts (tag_of (table_of p)) (merged_facts p) }
    ensures few { (m : Memory) (i : ℕ) (p : Merged) → IsMergedOf m i p → length (merged_facts p) ≤ pair_facts m.tables (table_of p) i }
{}
