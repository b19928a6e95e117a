ghost use Rattle.std.specs.Prelude.{◌≡◌, ◌≢◌, ◌<◌, ◌≤◌, All, None, true, false, length};
ghost use Rattle.pur_base.specs.Names.{is_name};
ghost use Rattle.pur_base.specs.Plain.{refusal as refusal_of, first_cause, overwrite_causes, read_causes, derive_causes, is_full as has_full, is_no_size as has_no_size, has as has_name};
ghost use Rattle.pur_base.specs.declared.request.Request.TheVariants.{Create as CreateForm, Copy as CopyForm, Destroy as DestroyForm};
ghost use Rattle.command_spec.specs.Asked.{HasCopy, HasObject as IsThere, HasSpan, IsAllowed, IsDerivable, IsFree};
ghost use Rattle.command_spec.specs.Lawful.{IsLawful};
ghost use Rattle.volume_ops.specs.OfArray.{HasItsObject, OfArray};

use crate::found::{found, passes};
use crate::listing::len;
use array_memory::Memory;
use pur_base::{Name, OBJECT_SECTORS, OBJECTS, ObjectKind, REQUEST_SECTORS, Refusal, Request};

fn is_no_size(sectors: u64) -> bool
    ensures { result ≡ has_no_size sectors }
{
    sectors == 0 || OBJECT_SECTORS < sectors
}

/// Whether an object has a name.
fn has(memory: &Memory, name: &Name) -> bool
    ensures array { OfArray memory.now.memory (λ array. result ≡ has_name array name.now) }
    ensures there { result ≡ true → IsThere memory.now.objects name.now }
    ensures absent { result ≡ false → All (λ x. x.name ≢ name.now) memory.now.objects }
{
    match found(memory, name) {
        Some(_) => true,
        None => false,
    }
}

/// Whether there are as many objects as there may be.
fn is_full(memory: &Memory) -> bool
    ensures array { OfArray memory.now.memory (λ array. result ≡ has_full array) }
    ensures objects { result ≡ false → length memory.now.objects < OBJECTS }
{
    OBJECTS <= len(memory)
}

/// Why a volume of that name and size isn't created.
fn create_refusal(memory: &Memory, name: &Name, sectors: u64) -> Option<Refusal>
    ensures array { OfArray memory.now.memory (λ array. result ≡ refusal_of array (CreateForm name.now sectors)) }
    ensures allowed { result ≡ None → is_name name.now ≡ true → IsFree memory.now.objects name.now sectors }
{
    match found(memory, name) {
        Some(_) => Some(Refusal::Taken),
        None => if is_no_size(sectors) || is_full(memory) {
            Some(Refusal::Limit)
        } else {
            None
        },
    }
}

/// Why sectors of a volume aren't replaced.
fn overwrite_refusal(memory: &Memory, name: &Name, lba: u64, count: u8) -> Option<Refusal>
    ensures array { OfArray memory.now.memory (λ array. result ≡ first_cause (overwrite_causes array name.now lba count)) }
    ensures allowed { result ≡ None → count ≤ REQUEST_SECTORS → HasSpan memory.now.objects name.now lba count }
{
    let Some(object) = found(memory, name) else {
        return Some(Refusal::Unknown);
    };
    match object.kind {
        ObjectKind::Snapshot => Some(Refusal::ReadOnly),
        ObjectKind::Volume => if passes(object.sectors, lba, u64::from(count)) {
            Some(Refusal::Range)
        } else {
            None
        },
    }
}

/// Why sectors aren't read.
fn read_refusal(memory: &Memory, name: &Name, lba: u64, count: u8) -> Option<Refusal>
    ensures { OfArray memory.now.memory (λ array. result ≡ first_cause (read_causes array name.now lba count)) }
{
    let Some(object) = found(memory, name) else {
        return Some(Refusal::Unknown);
    };
    if passes(object.sectors, lba, u64::from(count)) {
        return Some(Refusal::Range);
    }
    None
}

/// Why an object isn't copied whole under a new name.
fn derive_refusal(memory: &Memory, name: &Name, new: &Name) -> Option<Refusal>
    ensures array { OfArray memory.now.memory (λ array. result ≡ first_cause (derive_causes array name.now new.now)) }
    ensures allowed { result ≡ None → is_name new.now ≡ true → IsDerivable memory.now.objects name.now new.now }
{
    if !has(memory, name) {
        return Some(Refusal::Unknown);
    }
    if has(memory, new) {
        return Some(Refusal::Taken);
    }
    if is_full(memory) {
        return Some(Refusal::Limit);
    }
    None
}

/// Why sectors of one object aren't copied into a volume.
fn copy_refusal(
    memory: &Memory,
    name: &Name,
    lba: u64,
    to: &Name,
    to_lba: u64,
    count: u64,
) -> Option<Refusal>
    ensures array { OfArray memory.now.memory (λ array. result ≡ refusal_of array (CopyForm name.now lba to.now to_lba count)) }
    ensures allowed { result ≡ None → 1 ≤ count → HasCopy memory.now.objects name.now lba to.now to_lba count }
{
    let Some(from) = found(memory, name) else {
        return Some(Refusal::Unknown);
    };
    let Some(into) = found(memory, to) else {
        return Some(Refusal::Unknown);
    };
    match into.kind {
        ObjectKind::Snapshot => Some(Refusal::ReadOnly),
        ObjectKind::Volume => if passes(from.sectors, lba, count)
            || passes(into.sectors, to_lba, count)
        {
            Some(Refusal::Range)
        } else {
            None
        },
    }
}

/// Why what is asked of an object as a whole isn't done.
fn unknown_refusal(memory: &Memory, name: &Name) -> Option<Refusal>
    ensures array { OfArray memory.now.memory (λ array. result ≡ refusal_of array (DestroyForm name.now)) }
    ensures allowed { result ≡ None → IsThere memory.now.objects name.now }
{
    if has(memory, name) {
        None
    } else {
        Some(Refusal::Unknown)
    }
}

/// Why the array refuses a request, or `None` where it accepts it.
/// Memory does by itself what it then accepts of logged requests, and has the object of each step on one.
pub fn refusal(memory: &Memory, request: &Request) -> Option<Refusal>
    ensures array { OfArray memory.now.memory (λ array. result ≡ refusal_of array request.now) }
    ensures allowed { result ≡ None → IsLawful request.now → IsAllowed memory.now.objects request.now }
    ensures there { result ≡ None → HasItsObject memory.now.objects request.now }
{
    match request {
        Request::Create { name, sectors } => create_refusal(memory, name, *sectors),
        Request::Write { name, lba, count } => overwrite_refusal(memory, name, *lba, *count),
        Request::Fill {
            name,
            lba,
            count,
            ..
        } => overwrite_refusal(memory, name, *lba, *count),
        Request::Zero { name, lba, count } => overwrite_refusal(memory, name, *lba, *count),
        Request::Read { name, lba, count } => read_refusal(memory, name, *lba, *count),
        Request::Snapshot { name, new } => derive_refusal(memory, name, new),
        Request::Clone { name, new } => derive_refusal(memory, name, new),
        Request::Copy {
            name,
            lba,
            to,
            to_lba,
            count,
        } => copy_refusal(memory, name, *lba, to, *to_lba, *count),
        Request::Destroy { name } => unknown_refusal(memory, name),
        Request::Flatten { name } => unknown_refusal(memory, name),
        _ => None,
    }
}
