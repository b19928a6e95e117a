ghost use Rattle.std.specs.Prelude.{◌≡◌, ◌≢◌, ◌+◌, IfSome, IfNone, All, Contains, nat_lt};
ghost use Rattle.volume_ops.specs.OfArray.{OfArray, HasFound};

use array_memory::Memory;
use pur_base::{Name, ObjectFact};

/// The object that has a name, if one has.
pub fn found(memory: &Memory, name: &Name) -> Option<ObjectFact>
    ensures array { OfArray memory.now.memory (λ array. HasFound array name.now result) }
    ensures some { IfSome result (λ x. Contains memory.now.objects x × (x.name ≡ name.now)) }
    ensures none { IfNone result (All (λ x. x.name ≢ name.now) memory.now.objects) }
{
    memory.kept();
    memory.get(name)
}

/// Whether so many sectors from `lba` on pass the end of an object of that size.
pub fn passes(size: u32, lba: u64, count: u64) -> bool
    ensures { result ≡ nat_lt size (lba + count) }
{
    let size = u64::from(size);
    size < count || size - count < lba
}
