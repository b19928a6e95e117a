// One device in memory.
ghost use Rattle.std.specs.Prelude.{◌≡◌, ℕ, ◌+◌, ◌-◌, ◌^◌, ◌<◌, ◌≤◌, [], ◌∷◌, ◌++◌, length, slice_index, slice_range, take, drop, IfOk, OnOk, OnErr};
ghost use Rattle.world.specs.Counts.{Rises};
ghost use Rattle.world.specs.Shelf.{Written};

use crate::record::Faults;
use crate::turns::Turns;
use pur_base::NoMemory;
use std::alloc::Global;
use world::Span;

/// A device in memory.
#[derive(Drop)]
pub struct Part {
    pub(crate) bytes: Vec<u8>,
    pub(crate) dirty: Vec<Span>,
    pub(crate) faults: u64,
    pub(crate) write_faults: u64,
    pub(crate) pulled: bool,
    pub(crate) turns: Turns,
    ghost are_bytes: { (i : ℕ) → slice_index bytes.items i < 256 },
    ghost faults_end: { faults ≤ 2 ^ 64 - 1 },
    ghost write_faults_end: { write_faults ≤ 2 ^ 64 - 1 },
}

// A law of slices of bytes.
pub(crate) fn are_bytes(bytes: &[u8])
    ensures { (i : ℕ) → slice_index bytes.now i < 256 }
{}

// Writes over what is there.
fn put_bytes(bytes: &mut Vec<u8>, at: usize, from: &[u8])
    requires { at + length from.now ≤ length bytes.old.items }
    ensures put { bytes.new.items ≡ take at bytes.old.items ++ from.now ++ drop (at + length from.now) bytes.old.items }
    ensures are_bytes { (i : ℕ) → slice_index bytes.new.items i < 256 }
{
    bytes[at..at + from.len()].copy_from_slice(from);
    are_bytes(bytes);
}

// Writes zeros over all that is there.
fn zero(bytes: &mut Vec<u8>)
    ensures len { length bytes.new.items ≡ length bytes.old.items }
    ensures zero { (i : ℕ) → slice_index bytes.new.items i ≡ 0 }
{
    bytes.fill(0);
}

impl Part {
    ghost use Rattle.std.specs.Prelude.{true, false};
    ghost use Rattle.world_mem.specs.Parts.{disk_of, plan_of, made_on, undo_what, will_fail, OnlyCounted, naming, nth_call, pulling, IsBlank};
    ghost use Rattle.world_mem.specs.declared.record.What.TheVariants.{Write};

    /// Counts a call, and says whether it is to fail.
    pub(crate) fn is_failing(&mut self) -> bool
        ensures same { disk_of self.new ≡ disk_of self.old }
        ensures plan { plan_of self.new ≡ plan_of self.old }
        ensures asked { result ≡ will_fail self.old }
    {
        let is_named = self.turns.is_next_named();
        self.pulled || is_named
    }

    pub(crate) fn counts(&self) -> Faults
        ensures { (result.faults ≡ self.now.faults) × (result.write_faults ≡ self.now.write_faults) }
    {
        Faults {
            faults: self.faults,
            write_faults: self.write_faults,
        }
    }

    pub(crate) fn count_read(&mut self)
        ensures plan { plan_of self.new ≡ plan_of self.old }
        ensures same { OnlyCounted (disk_of self.old) (disk_of self.new) }
        ensures rises { Rises (disk_of self.old).faults (disk_of self.new).faults }
        ensures stays { (disk_of self.new).write_faults ≡ (disk_of self.old).write_faults }
    {
        self.faults = self.faults.saturating_add(1);
    }

    pub(crate) fn count_write(&mut self)
        ensures plan { plan_of self.new ≡ plan_of self.old }
        ensures same { OnlyCounted (disk_of self.old) (disk_of self.new) }
        ensures rises { Rises (disk_of self.old).faults (disk_of self.new).faults }
        ensures write_rises { Rises (disk_of self.old).write_faults (disk_of self.new).write_faults }
    {
        self.faults = self.faults.saturating_add(1);
        self.write_faults = self.write_faults.saturating_add(1);
    }

    /// Makes a range dirty, and says whether there was memory for that.
    pub(crate) fn mark(&mut self, at: usize, size: usize) -> bool
        requires { at + size ≤ length self.old.bytes.items }
        ensures bytes { self.new.bytes.items ≡ self.old.bytes.items }
        ensures dirty { result ≡ true → self.new.dirty.items ≡ self.old.dirty.items ++ record { start = at; size = size } ∷ [] }
        ensures dirty_err { result ≡ false → self.new.dirty.items ≡ self.old.dirty.items }
        ensures plan { plan_of self.new ≡ plan_of self.old }
        ensures counts { (self.new.faults ≡ self.old.faults) × (self.new.write_faults ≡ self.old.write_faults) }
    {
        self.dirty
            .push(Span {
                start: at as u64,
                size: size as u64,
            })
            .is_ok()
    }

    /// Writes over what is there, which it gives.
    pub(crate) fn put(&mut self, alloc: Global, at: usize, from: &[u8]) -> Result<Vec<u8>, NoMemory>
        requires { at + length from.now ≤ length self.old.bytes.items }
        ensures written { OnOk result (Written at from.now self.old.bytes.items self.new.bytes.items) }
        ensures dirty { OnOk result (self.new.dirty.items ≡ self.old.dirty.items ++ record { start = at; size = length from.now } ∷ []) }
        ensures plan { plan_of self.new ≡ plan_of self.old }
        ensures counts { (self.new.faults ≡ self.old.faults) × (self.new.write_faults ≡ self.old.write_faults) }
        ensures undone { IfOk result (λ was. undo_what (Write at was) (disk_of self.new) ≡ disk_of self.old) }
        ensures err { OnErr result (disk_of self.new ≡ disk_of self.old) }
    {
        let Ok(was) = self.bytes[at..at + from.len()].to_vec(alloc) else {
            return Err(NoMemory);
        };
        if !self.mark(at, from.len()) {
            return Err(NoMemory);
        }
        put_bytes(&mut self.bytes, at, from);
        Ok(was)
    }

    /// From now on all calls are to fail, or none but those that are named.
    pub(crate) fn set_pulled(&mut self, pulled: bool)
        ensures disk { disk_of self.new ≡ disk_of self.old }
        ensures plan { plan_of self.new ≡ pulling (plan_of self.old) pulled }
    {
        self.pulled = pulled;
    }

    /// The nth next call is to fail, counted from 1.
    pub(crate) fn name(&mut self, nth: u64) -> Result<(), NoMemory>
        requires { 1 ≤ nth }
        ensures disk { disk_of self.new ≡ disk_of self.old }
        ensures ok { OnOk result (plan_of self.new ≡ naming (plan_of self.old) (nth_call (made_on self.old) nth)) }
        ensures err { OnErr result (plan_of self.new ≡ plan_of self.old) }
    {
        self.turns.name(nth)
    }

    /// Zero bytes in place of what is there, none of them dirty. It is no longer pulled.
    pub(crate) fn blank(&mut self)
        ensures blank { IsBlank (length self.old.bytes.items) (disk_of self.new) }
        ensures counts { (self.new.faults ≡ self.old.faults) × (self.new.write_faults ≡ self.old.write_faults) }
        ensures plan { plan_of self.new ≡ pulling (plan_of self.old) false }
    {
        zero(&mut self.bytes);
        self.dirty.clear();
        self.pulled = false;
    }
}
