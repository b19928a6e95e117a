// How much each table has.
ghost use Rattle.std.specs.Prelude.{◌≤◌, length};
ghost use Rattle.pur_base.specs.Devices.{Geometry};
ghost use Rattle.boot_codec.specs.Record.{patch_segments};
ghost use Rattle.boot_codec.specs.declared.limits.TheConstants.{PATCHES, PATCH_SEGMENTS};
ghost use Rattle.memory_spec.specs.Merging.{of_table};
ghost use Rattle.shelf_look.specs.Found.{AreCountsOf, IsCountOf};
ghost use Rattle.shelf_look.specs.Opening.{IsOpeningIn};

use crate::Opening;
use boot_codec::Patches;
use pur_base::Table;

/// The tables.
const TABLES: usize = 5;

/// How many patches a table has, segments of theirs, facts in them, and facts that are visible.
#[derive(Clone, Copy)]
pub struct TableCounts {
    pub patches: usize,
    pub segments: usize,
    pub facts: u64,
    pub visible: usize,
}

/// How much a table has by these patches, where so many facts are visible.
fn counted(patches: &Patches, table: Table, visible: usize) -> TableCounts
    requires count { length patches.now ≤ PATCHES }
    requires room { patch_segments patches.now ≤ PATCH_SEGMENTS }
    ensures { IsCountOf (of_table table patches.now) visible result }
{
    let tag = table.tag();
    let mut counts = TableCounts {
        patches: 0,
        segments: 0,
        facts: 0,
        visible,
    };
    for index in 0..patches.len() {
        let patch = patches.at(index);
        if patch.tag == tag {
            counts.patches += 1;
            counts.segments += patch.segments.as_slice().len();
            counts.facts += u64::from(patch.facts);
        }
    }
    counts
}

/// How much each table has: objects, mediums, addresses, segments and elisions. Each elision counts as visible.
pub fn counts_of(opening: &Opening) -> [TableCounts; TABLES]
    requires { (shelf : Geometry) × IsOpeningIn shelf opening.now }
    ensures { AreCountsOf opening.now result }
{
    let patches = &opening.loaded.record.patches;
    let elisions = counted(patches, Table::Elision, 0);
    [
        counted(patches, Table::Object, opening.memory.len()),
        counted(patches, Table::Medium, opening.visible.mediums.len()),
        counted(patches, Table::Address, opening.visible.addresses.len()),
        counted(patches, Table::Segment, opening.memory.segments().len()),
        TableCounts {
            visible: elisions.facts as usize,
            ..elisions
        },
    ]
}
