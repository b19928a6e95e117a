// The numbers of a status.
ghost use Rattle.std.specs.Prelude.{◌≡◌, ◌<◌, ◌^◌, length};
ghost use Rattle.std.specs.List.{AllByRecursion, sum_by};
ghost use Rattle.pur_base.specs.Devices.{Geometry};
ghost use Rattle.boot_codec.specs.Record.{set_count};
ghost use Rattle.volume_ops.specs.OfArray.{OfArray};
ghost use Rattle.array_core.specs.Ready.{IsArrayOf};
ghost use Rattle.array_checkpoint.specs.Room.{IsRoomOf};
ghost use Rattle.memory_spec.specs.Tables.{facts};
ghost use Rattle.session_spec.specs.Numbers.{status_numbers};

use array_checkpoint::Room;
use array_core::Array;
use pur_base::SegmentFact;
use session_spec::CONTROLLER;
use volume_ops::len;

/// How many of the flags are set.
fn set_flags(flags: &[bool]) -> u64
    ensures { result ≡ set_count flags.now }
{
    flags.iter().filter(|flag| **flag).count() as u64
}

/// How many sectors were placed in the segments.
fn placed_in(segments: &[SegmentFact]) -> u64
    requires { length segments.now < 2 ^ 48 }
    ensures { result ≡ sum_by (λ d. d.placed) segments.now }
{
    let mut placed = 0;
    for segment in segments {
        placed += u64::from(segment.placed);
    }
    placed
}

/// The numbers of a status, of an array and what room its record and its tables leave. It takes no memory.
pub(crate) fn numbers_of(array: &Array, room: &Room) -> [u64; 10]
    requires is_of { (shelf : Geometry) × IsArrayOf shelf array.now }
    requires room { IsRoomOf array.now room.now }
    ensures numbers { OfArray array.now.memory.memory (λ x. result ≡ status_numbers array.now.register.record (facts array.now.memory.memory.tables) array.now.memory.memory.next.segment (length x) array.now.log.count room.now.groups) }
    ensures fit { AllByRecursion (λ n. n < 2 ^ 64) result }
{
    let record = array.register.record();
    let segments = array.memory.segments();
    [
        CONTROLLER,
        len(&array.memory) as u64,
        u64::from(room.groups),
        set_flags(&record.members.drives),
        set_flags(&record.members.nvrams),
        array.log.free_slots() as u64,
        segments.len() as u64,
        room.patch_segments as u64,
        placed_in(segments),
        record.generation,
    ]
}
