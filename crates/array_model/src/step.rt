ghost use Rattle.std.specs.Prelude.{◌≡◌, None, true, if◌then◌else◌, [], length, IfOk, OnErr};
ghost use Rattle.pur_base.specs.Grammar.{is_in_force, data_count};
ghost use Rattle.pur_base.specs.Plain.{refusal, first_cause, overwrite_causes, read_causes, derive_causes, is_no_size as has_no_size};
ghost use Rattle.pur_base.specs.declared.request.Request.TheVariants.{Create as CreateForm, Write as WriteForm, Fill as FillForm, Read as ReadForm, Snapshot as SnapshotForm, Clone as CloneForm, Copy as CopyForm, Destroy as DestroyForm, Flatten as FlattenForm};
ghost use Rattle.array_model.specs.Step.{Meets, TakesMemory};

use crate::plain::{Held, Plain};
use pur_base::{Name, NoMemory, OBJECT_SECTORS, OBJECTS, Refusal, Request, Sector};

/// What the plain array answers.
#[derive(Clone, Copy, PartialEq, Eq)]
pub enum PlainReply {
    Done,
    /// The sectors that stand there.
    Data(Held),
    /// The list of its names.
    Names,
    Refused(Refusal),
}

fn is_no_size(sectors: u64) -> bool
    ensures { result ≡ has_no_size sectors }
{
    sectors == 0 || OBJECT_SECTORS < sectors
}

/// Why a volume of that name and size isn't created.
fn create_refusal(plain: &Plain, name: &Name, sectors: u64) -> Option<Refusal>
    ensures { result ≡ refusal plain.now (CreateForm name.now sectors) }
{
    if plain.has(name) {
        return Some(Refusal::Taken);
    }
    if is_no_size(sectors) || OBJECTS <= plain.len() {
        return Some(Refusal::Limit);
    }
    None
}

fn create(plain: &mut Plain, name: &Name, sectors: u64) -> Result<PlainReply, NoMemory>
    ensures ok { IfOk result (λ reply. Meets plain.old (CreateForm name.now sectors) [] reply plain.new) }
    ensures err { OnErr result ((plain.new ≡ plain.old) × (refusal plain.old (CreateForm name.now sectors) ≡ None)) }
{
    if let Some(why) = create_refusal(plain, name, sectors) {
        return Ok(PlainReply::Refused(why));
    }
    plain.append(name, sectors as usize)?;
    Ok(PlainReply::Done)
}

fn write(plain: &mut Plain, name: &Name, lba: u64, sectors: &[Sector]) -> PlainReply
    ensures { Meets plain.old (WriteForm name.now lba (length sectors.now)) sectors.now result plain.new }
{
    match plain.writable(name, lba, sectors.len()) {
        Ok(place) => {
            plain.write(&place, sectors);
            PlainReply::Done
        }
        Err(why) => PlainReply::Refused(why),
    }
}

fn fill(plain: &mut Plain, name: &Name, lba: u64, count: u8, byte: u8) -> PlainReply
    ensures { Meets plain.old (FillForm name.now lba count byte) [] result plain.new }
{
    match plain.writable(name, lba, count as usize) {
        Ok(place) => {
            plain.fill(&place, byte);
            PlainReply::Done
        }
        Err(why) => PlainReply::Refused(why),
    }
}

fn read(plain: &Plain, name: &Name, lba: u64, count: u8) -> PlainReply
    ensures { Meets plain.now (ReadForm name.now lba count) [] result plain.now }
{
    match plain.readable(name, lba, count as usize) {
        Ok(place) => PlainReply::Data(place),
        Err(why) => PlainReply::Refused(why),
    }
}

/// Why an object isn't copied whole under a new name.
fn derive_refusal(plain: &Plain, name: &Name, new: &Name) -> Option<Refusal>
    ensures { result ≡ first_cause (derive_causes plain.now name.now new.now) }
{
    if !plain.has(name) {
        return Some(Refusal::Unknown);
    }
    if plain.has(new) {
        return Some(Refusal::Taken);
    }
    if OBJECTS <= plain.len() {
        return Some(Refusal::Limit);
    }
    None
}

/// Copies an object whole under a new name, as a snapshot or as a volume.
fn derive(
    plain: &mut Plain,
    name: &Name,
    new: &Name,
    snapshot: bool,
) -> Result<PlainReply, NoMemory>
    ensures ok { IfOk result (λ reply. Meets plain.old (if snapshot then SnapshotForm name.now new.now else CloneForm name.now new.now) [] reply plain.new) }
    ensures err { OnErr result ((plain.new ≡ plain.old) × (first_cause (derive_causes plain.old name.now new.now) ≡ None)) }
{
    if let Some(why) = derive_refusal(plain, name, new) {
        return Ok(PlainReply::Refused(why));
    }
    plain.append_copy(name, new, snapshot)?;
    Ok(PlainReply::Done)
}

fn copy(plain: &mut Plain, name: &Name, lba: u64, to: &Name, to_lba: u64, count: u64) -> PlainReply
    ensures { Meets plain.old (CopyForm name.now lba to.now to_lba count) [] result plain.new }
{
    match plain.copyable(name, lba, to, to_lba, count as usize) {
        Ok((from, place)) => {
            plain.copy(&from, &place);
            PlainReply::Done
        }
        Err(why) => PlainReply::Refused(why),
    }
}

fn destroy(plain: &mut Plain, name: &Name) -> PlainReply
    ensures { Meets plain.old (DestroyForm name.now) [] result plain.new }
{
    if !plain.has(name) {
        return PlainReply::Refused(Refusal::Unknown);
    }
    plain.remove(name);
    PlainReply::Done
}

/// A step on an object leaves the array.
fn work_on(plain: &Plain, name: &Name) -> PlainReply
    ensures { Meets plain.now (FlattenForm name.now) [] result plain.now }
{
    match unknown_refusal(plain, name) {
        Some(why) => PlainReply::Refused(why),
        None => PlainReply::Done,
    }
}

/// Answers a request of a form in force, a write with as many sectors as it asks for, and does to the array what it asks.
/// Want of memory comes from `create`, `snapshot` and `clone` alone, where nothing else refuses them, and leaves the array.
pub fn plain_step(
    plain: &mut Plain,
    request: &Request,
    sectors: &[Sector],
) -> Result<PlainReply, NoMemory>
    requires in_force { is_in_force request.now ≡ true }
    requires written { length sectors.now ≡ data_count request.now }
    ensures ok { IfOk result (λ reply. Meets plain.old request.now sectors.now reply plain.new) }
    ensures err { OnErr result ((plain.new ≡ plain.old) × TakesMemory request.now × (refusal plain.old request.now ≡ None)) }
{
    match request {
        Request::Create { name, sectors } => create(plain, name, *sectors),
        Request::Write { name, lba, .. } => Ok(write(plain, name, *lba, sectors)),
        Request::Fill {
            name,
            lba,
            count,
            byte,
        } => Ok(fill(plain, name, *lba, *count, *byte)),
        Request::Zero { name, lba, count } => Ok(fill(plain, name, *lba, *count, 0)),
        Request::Read { name, lba, count } => Ok(read(plain, name, *lba, *count)),
        Request::Snapshot { name, new } => derive(plain, name, new, true),
        Request::Clone { name, new } => derive(plain, name, new, false),
        Request::Copy {
            name,
            lba,
            to,
            to_lba,
            count,
        } => Ok(copy(plain, name, *lba, to, *to_lba, *count)),
        Request::Destroy { name } => Ok(destroy(plain, name)),
        Request::List => Ok(PlainReply::Names),
        Request::Flatten { name } => Ok(work_on(plain, name)),
        Request::Status | Request::Checkpoint | Request::Merge { .. } => Ok(PlainReply::Done),
        _ => unreachable!(),
    }
}

/// Why sectors of a volume aren't replaced.
fn overwrite_refusal(plain: &Plain, name: &Name, lba: u64, count: u8) -> Option<Refusal>
    ensures { result ≡ first_cause (overwrite_causes plain.now name.now lba count) }
{
    match plain.writable(name, lba, count as usize) {
        Ok(_) => None,
        Err(why) => Some(why),
    }
}

/// Why sectors aren't read.
fn read_refusal(plain: &Plain, name: &Name, lba: u64, count: u8) -> Option<Refusal>
    ensures { result ≡ first_cause (read_causes plain.now name.now lba count) }
{
    match plain.readable(name, lba, count as usize) {
        Ok(_) => None,
        Err(why) => Some(why),
    }
}

/// Why sectors aren't copied.
fn copy_refusal(
    plain: &Plain,
    name: &Name,
    lba: u64,
    to: &Name,
    to_lba: u64,
    count: u64,
) -> Option<Refusal>
    ensures { result ≡ refusal plain.now (CopyForm name.now lba to.now to_lba count) }
{
    match plain.copyable(name, lba, to, to_lba, count as usize) {
        Ok(_) => None,
        Err(why) => Some(why),
    }
}

/// Why what is asked of an object as a whole isn't done.
fn unknown_refusal(plain: &Plain, name: &Name) -> Option<Refusal>
    ensures { result ≡ refusal plain.now (DestroyForm name.now) }
{
    if plain.has(name) {
        None
    } else {
        Some(Refusal::Unknown)
    }
}

/// Why the array refuses a request of a form in force, or `None` where it accepts it.
pub fn refusal_of(plain: &Plain, request: &Request) -> Option<Refusal>
    requires { is_in_force request.now ≡ true }
    ensures { result ≡ refusal plain.now request.now }
{
    match request {
        Request::Create { name, sectors } => create_refusal(plain, name, *sectors),
        Request::Write { name, lba, count } => overwrite_refusal(plain, name, *lba, *count),
        Request::Fill {
            name,
            lba,
            count,
            ..
        } => overwrite_refusal(plain, name, *lba, *count),
        Request::Zero { name, lba, count } => overwrite_refusal(plain, name, *lba, *count),
        Request::Read { name, lba, count } => read_refusal(plain, name, *lba, *count),
        Request::Snapshot { name, new } | Request::Clone { name, new } => {
            derive_refusal(plain, name, new)
        }
        Request::Copy {
            name,
            lba,
            to,
            to_lba,
            count,
        } => copy_refusal(plain, name, *lba, to, *to_lba, *count),
        Request::Destroy { name } | Request::Flatten { name } => unknown_refusal(plain, name),
        Request::List | Request::Status | Request::Checkpoint | Request::Merge { .. } => None,
        _ => unreachable!(),
    }
}
