ghost use Rattle.std.specs.Prelude.{◌≡◌, ℕ, ◌+◌, ◌≤◌, None, Some, All, Contains, length, slice_index, IfErr, IfNone, IfSome, OnErr, OnOk};
ghost use Rattle.std.specs.List.{AllZip};
ghost use Rattle.pur_base.specs.Plain.{first_cause, read_causes, sectors_of, span, Array};
ghost use Rattle.memory_spec.specs.Memory.{Contents, IsSound, ReadsAs, TargetReads};
ghost use Rattle.volume_ops.specs.OfArray.{OfArray};
ghost use Rattle.volume_ops.specs.Targets.{IsPlaced, Stands};

use crate::found::{found, passes};
use array_memory::Memory;
use pur_base::{Location, Name, ObjectFact, REQUEST_SECTORS, Refusal, SECTOR_BYTES, Target};

/// Where the sectors of an object stand, from `lba` on.
fn locate(memory: &Memory, object: &ObjectFact, lba: u64, targets: &mut [Target])
    requires sound { IsSound memory.now.memory }
    requires there { Contains memory.now.objects object.now }
    requires few { length targets.old ≤ REQUEST_SECTORS }
    requires within { lba + length targets.old ≤ object.now.sectors }
    ensures stand { All (Stands memory.now.memory) targets.new }
    ensures sectors { (contents : Contents) (array : Array) → ReadsAs contents memory.now.memory array
        → AllZip (TargetReads contents memory.now.memory.staged) targets.new (span lba (length targets.old) (sectors_of array object.now.name)) }
{
    memory.kept();
    memory.resolve(object.medium, lba as u32, targets);
}

/// Where the sectors stand that a read answers, as many as there are places, or why it is refused.
pub fn read(memory: &Memory, name: &Name, lba: u64, targets: &mut [Target]) -> Result<(), Refusal>
    requires sound { IsSound memory.now.memory }
    requires few { length targets.old ≤ REQUEST_SECTORS }
    ensures accepted { OnOk result (OfArray memory.now.memory (λ array. first_cause (read_causes array name.now lba (length targets.old)) ≡ None)) }
    ensures sectors { OnOk result ((contents : Contents) (array : Array) → ReadsAs contents memory.now.memory array
        → AllZip (TargetReads contents memory.now.memory.staged) targets.new (span lba (length targets.old) (sectors_of array name.now))) }
    ensures stand { OnOk result (All (Stands memory.now.memory) targets.new) }
    ensures refused { IfErr result (λ why. OfArray memory.now.memory (λ array. first_cause (read_causes array name.now lba (length targets.old)) ≡ Some why)) }
    ensures err { OnErr result (targets.new ≡ targets.old) }
{
    let Some(object) = found(memory, name) else {
        return Err(Refusal::Unknown);
    };
    if passes(object.sectors, lba, targets.len() as u64) {
        return Err(Refusal::Range);
    }
    locate(memory, &object, lba, targets);
    Ok(())
}

/// Writes zeros over all that is there.
fn clear(into: &mut [u8])
    ensures { (i : ℕ) → slice_index into.new i ≡ 0 }
{
    into.fill(0);
}

/// Copies a target's sector from memory, where memory has it: a staged one, or zeros. Else says where it stands in a segment.
pub fn fetch(memory: &Memory, target: Target, into: &mut [u8]) -> Option<Location>
    requires stand { Stands memory.now.memory target }
    requires size { length into.old ≡ SECTOR_BYTES }
    ensures none { IfNone result ((contents : Contents) → TargetReads contents memory.now.memory.staged target into.new) }
    ensures some { IfSome result (IsPlaced memory.now.memory target) }
    ensures left { IfSome result (λ _at. into.new ≡ into.old) }
{
    match target {
        Target::Zero => {
            clear(into);
            None
        },
        Target::Stored(at) => if at.segment.0 == 0 {
            into.copy_from_slice(memory.staged(at.index).as_bytes());
            None
        } else {
            Some(at)
        },
    }
}
