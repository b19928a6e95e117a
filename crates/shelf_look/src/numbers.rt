// The numbers of an array that can be opened.
ghost use Rattle.std.specs.Prelude.{◌≡◌, ◌+◌, ◌≤◌, ◌<◌, ◌^◌, length};
ghost use Rattle.std.specs.List.{sum_by};
ghost use Rattle.pur_base.specs.Devices.{Geometry};
ghost use Rattle.boot_codec.specs.Record.{patch_segments, set_count};
ghost use Rattle.boot_codec.specs.declared.limits.TheConstants.{PATCH_SEGMENTS};
ghost use Rattle.boot_codec.specs.Record.{set_count};
ghost use Rattle.shelf_look.specs.Opening.{IsOpeningIn};
ghost use Rattle.shelf_look.specs.Numbers.{AreNumbersOf};

use crate::Opening;
use boot_codec::Patches;
use free_space::groups_left;
use pur_base::SegmentFact;

/// What a status tells of an array that is open, but for its objects: of the record in force, the tables that it names, and the log.
#[derive(Clone, Copy)]
pub struct Numbers {
    /// The generation of the record.
    pub generation: u64,
    /// The drives that it names, and those of them that hold it.
    pub drives: usize,
    pub holding: usize,
    /// The NVRAM devices that it names, and those of them that answered.
    pub nvrams: usize,
    pub answering: usize,
    /// For how many more segments there is room.
    pub groups: u32,
    /// The data segments, and the sectors that were placed in them.
    pub segments: usize,
    pub placed: u64,
    /// The segments of the tables' patches.
    pub patch_segments: usize,
    /// The free slots of the log.
    pub free_slots: usize,
}

/// How many of the flags are set.
pub fn set_flags(flags: &[bool]) -> usize
    ensures { result ≡ set_count flags.now }
{
    let mut count = 0;
    for flag in flags {
        count += usize::from(*flag);
    }
    count
}

/// How many sectors were placed in the segments.
fn placed_in(segments: &[SegmentFact]) -> u64
    requires { length segments.now < 2 ^ 48 }
    ensures { result ≡ sum_by (λ d. d.placed) segments.now }
{
    let mut placed = 0;
    for segment in segments {
        placed += u64::from(segment.placed);
    }
    placed
}

/// How many segments the patches have.
fn segments_of(patches: &Patches) -> usize
    requires { patch_segments patches.now ≤ PATCH_SEGMENTS }
    ensures { result ≡ patch_segments patches.now }
{
    let mut count = 0;
    for index in 0..patches.len() {
        let patch = patches.at(index);
        count += patch.segments.as_slice().len();
    }
    count
}

/// The numbers of what an opening would find. It takes no memory.
pub fn numbers_of(opening: &Opening) -> Numbers
    requires { (shelf : Geometry) × IsOpeningIn shelf opening.now }
    ensures { AreNumbersOf opening.now result }
{
    let record = &opening.loaded.record;
    let segments = opening.memory.segments();
    Numbers {
        generation: record.generation,
        drives: set_flags(&record.members.drives),
        holding: set_flags(&opening.loaded.drives),
        nvrams: set_flags(&record.members.nvrams),
        answering: set_flags(&opening.log.members()),
        groups: groups_left(record, segments),
        segments: segments.len(),
        placed: placed_in(segments),
        patch_segments: segments_of(&record.patches),
        free_slots: opening.log.free_slots(),
    }
}
