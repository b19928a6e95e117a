ghost use Rattle.std.specs.Prelude.{◌≡◌, length, slice_get, option_map};
ghost use Rattle.array_spec.specs.Base.{is_snapshot as is_snapshot_kind};
ghost use Rattle.volume_ops.specs.OfArray.{OfArray, line_of};

use array_memory::Memory;
use pur_base::{Name, ObjectKind};

/// A line of the list of names.
#[derive(Clone, Copy, Drop)]
pub struct ObjectEntry {
    pub name: Name,
    pub snapshot: bool,
    /// The size in sectors.
    pub sectors: u64,
}

/// The number of volumes and snapshots.
pub fn len(memory: &Memory) -> usize
    ensures array { OfArray memory.now.memory (λ array. result ≡ length array) }
    ensures objects { result ≡ length memory.now.objects }
{
    memory.kept();
    memory.len()
}

/// Whether an object of that kind is a snapshot.
fn is_snapshot(kind: ObjectKind) -> bool
    ensures { result ≡ is_snapshot_kind kind }
{
    match kind {
        ObjectKind::Volume => false,
        ObjectKind::Snapshot => true,
    }
}

/// The name, kind and size of the object at a place in order of creation, or `None` past the last.
pub fn entry(memory: &Memory, index: usize) -> Option<ObjectEntry>
    ensures { OfArray memory.now.memory (λ array. result ≡ option_map line_of (slice_get array index)) }
{
    memory.kept();
    match memory.at(index) {
        Some(object) => Some(ObjectEntry {
            name: object.name,
            snapshot: is_snapshot(object.kind),
            sectors: u64::from(object.sectors),
        }),
        None => None,
    }
}
