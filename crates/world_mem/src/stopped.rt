// What a stop leaves.
ghost use Rattle.std.specs.Prelude.{◌≡◌, ◌⊎◌, ◌<◌, [], ℕ, length, slice_index, slice_index_or, true, false, IfOk};
ghost use Rattle.world.specs.Shelf.{IsIn, IsInSome, MayLeave};
ghost use Rattle.world_mem.specs.Parts.{disk_of, disks_of, disk_at, plan_of, plans_of, plan_at, sound, IsTorn};

use crate::MemWorld;
use crate::part::{Part, are_bytes};
use crate::turns::Turns;
use pur_base::NoMemory;
use std::alloc::Global;
use world::Span;

/// Where the bytes of dirty ranges come from.
pub trait Choice {
    /// The next byte.
    fn byte(&mut self) -> u8;
}

// Notes the places of a range.
fn note(marks: &mut Vec<bool>, span: Span)
    ensures len { length marks.new.items ≡ length marks.old.items }
    ensures each { (i : ℕ) → slice_index_or marks.new.items i false ≡ true → IsIn span i ⊎ (slice_index_or marks.old.items i false ≡ true) }
{
    for i in 0..marks.len() {
        let place = i as u64;
        if span.start <= place && place - span.start < span.size {
            marks[i] = true;
        }
    }
}

// Which places lie in one of the ranges.
fn marks(alloc: Global, size: usize, spans: &[Span]) -> Result<Vec<bool>, NoMemory>
    ensures len { IfOk result (λ marks. length marks.items ≡ size) }
    ensures each { IfOk result (λ marks. (i : ℕ) → slice_index_or marks.items i false ≡ true → IsInSome spans.now i) }
{
    let mut marks = vec![in alloc; false; size]?;
    for span in spans {
        note(&mut marks, *span);
    }
    Ok(marks)
}

// Chooses the bytes at the marks, in order.
fn choose<C: Choice>(bytes: &mut [u8], marks: &[bool], choice: &mut C)
    requires { length marks.now ≡ length bytes.old }
    ensures { (i : ℕ) → slice_index_or marks.now i false ≡ false → slice_index bytes.new i ≡ slice_index bytes.old i }
{
    for i in 0..bytes.len() {
        if marks[i] {
            bytes[i] = choice.byte();
        }
    }
}

fn torn<C: Choice>(alloc: Global, part: &Part, choice: &mut C) -> Result<Vec<u8>, NoMemory>
    ensures { IfOk result (λ bytes. MayLeave (disk_of part.now) bytes.items) }
{
    let mut bytes = part.bytes.to_vec(alloc)?;
    if !part.dirty.is_empty() {
        let marks = marks(alloc, bytes.len(), &part.dirty)?;
        choose(&mut bytes, &marks, choice);
    }
    are_bytes(&bytes);
    Ok(bytes)
}

fn torn_part<C: Choice>(alloc: Global, part: &Part, choice: &mut C) -> Result<Part, NoMemory>
    ensures disk { IfOk result (λ torn. IsTorn (disk_of part.now) (disk_of torn)) }
    ensures plan { IfOk result (λ torn. plan_of torn ≡ sound) }
{
    Ok(Part {
        bytes: torn(alloc, part, choice)?,
        dirty: Vec::new(alloc),
        faults: 0,
        write_faults: 0,
        pulled: false,
        turns: Turns::new(alloc),
    })
}

fn torn_parts<C: Choice>(
    alloc: Global,
    parts: &[Part],
    choice: &mut C,
) -> Result<Vec<Part>, NoMemory>
    ensures len { IfOk result (λ torn. length torn.items ≡ length parts.now) }
    ensures disks { IfOk result (λ torn. (k : ℕ) → k < length parts.now → IsTorn (disk_at (disks_of parts.now) k) (disk_at (disks_of torn.items) k)) }
    ensures plans { IfOk result (λ torn. (k : ℕ) → plan_at (plans_of torn.items) k ≡ sound) }
{
    let mut all = Vec::new(alloc);
    for part in parts {
        all.push(torn_part(alloc, part, choice)?)?;
    }
    Ok(all)
}

impl MemWorld {
    ghost use Rattle.pur_base.specs.declared.device.Device.{Device};
    ghost use Rattle.world.specs.Shelf.{MayStop};
    ghost use Rattle.world_mem.specs.Past.{shelved, sourced, sunk, view, image_now, IsSound};

    /// What a stop now leaves, with a choice of each dirty byte: drives and then NVRAM, by number, and places in order.
    /// It has no input and no output yet, and no call is to fail.
    pub fn stopped<C: Choice>(&self, alloc: Global, choice: &mut C) -> Result<MemWorld, NoMemory>
        ensures left { IfOk result (λ w. MayStop (shelved self.now) (image_now (shelved self.now) (shelved w))) }
        ensures shape { IfOk result (λ w. ((shelved w).drives ≡ (shelved self.now).drives) × ((shelved w).units ≡ (shelved self.now).units)) }
        ensures clean { IfOk result (λ w. (d : Device) → ((shelved w).disk d).dirty ≡ []) }
        ensures sound { IfOk result IsSound }
        ensures streams { IfOk result (λ w. ((sourced w).bytes ≡ []) × ((sunk w).bytes ≡ [])) }
        ensures starts { IfOk result (λ w. ((view w).calls ≡ []) × ((view w).starved ≡ false)) }
    {
        let drives = torn_parts(alloc, &self.drives, choice)?;
        let nvram = torn_parts(alloc, &self.nvram, choice)?;
        Ok(MemWorld::over(alloc, drives, nvram, self.units, Vec::new(alloc)))
    }
}
