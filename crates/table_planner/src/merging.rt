// Two neighbouring patches of a table are made one.
ghost use Rattle.std.specs.Prelude.{◌≡◌, ◌≢◌, ◌+◌, ◌<◌, ℕ, IfOk};
ghost use Rattle.pur_base.specs.Visible.{is_elided, is_within};
ghost use Rattle.pur_base.specs.declared.request.Table.{Table};
ghost use Rattle.elision.specs.Ranges.{ranges_of};
ghost use Rattle.memory_spec.specs.Tables.{flushed};
ghost use Rattle.table_plan.specs.Merging.{patch_count, table_of, IsMergedOf};

use array_memory::Memory;
use elision::Elided;
use loaded_tables::stored_ids;
use pur_base::{NoMemory, Table};
use std::alloc::Global;
use table_plan::Merged;

/// A table's patch of that index and the next one as one, where these ids are elided.
fn merged_by(
    alloc: Global,
    memory: &Memory,
    table: Table,
    index: usize,
    elided: &Elided,
) -> Result<Merged, NoMemory>
    requires there { index + 1 < patch_count memory.now.memory.tables table }
    requires elided { (t : Table) → t ≢ Table.Elision → (id : ℕ) → is_elided (flushed memory.now.memory.tables).elisions t id ≡ is_within (ranges_of elided.now t) id }
    ensures table { IfOk result (λ p. table_of p ≡ table) }
    ensures merged { IfOk result (IsMergedOf memory.now.memory index) }
{
    let elided = elided.ranges(table);
    Ok(match table {
        Table::Object => Merged::Object(memory.objects().facts().merged(alloc, index, elided)?),
        Table::Medium => Merged::Medium(memory.mediums().facts.merged(alloc, index, elided)?),
        Table::Address => Merged::Address(memory.addresses().facts.merged(alloc, index, elided)?),
        Table::Segment => {
            Merged::Segment(memory.segment_table().facts().merged(alloc, index, elided)?)
        }
        Table::Elision => Merged::Elision(memory.elisions().merged(alloc, index, elided)?),
    })
}

/// A table's patch of that index and the next one as one, without what they need not keep, as far as stored elisions say so.
/// It fails for want of memory only.
pub fn merged(
    alloc: Global,
    memory: &Memory,
    table: Table,
    index: usize,
) -> Result<Merged, NoMemory>
    requires { index + 1 < patch_count memory.now.memory.tables table }
    ensures table { IfOk result (λ p. table_of p ≡ table) }
    ensures merged { IfOk result (IsMergedOf memory.now.memory index) }
{
    memory.kept();
    match stored_ids(alloc, memory.elisions())? {
        Some(ids) => merged_by(alloc, memory, table, index, &ids),
        None => merged_by(alloc, memory, table, index, memory.elided()),
    }
}
