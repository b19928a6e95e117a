// The bytes of a source, taken a buffer at a time.
ghost use Rattle.std.specs.Prelude.{◌≡◌, ◌+◌, ◌-◌, ◌<◌, ◌≤◌, ◌++◌, ◌∷◌, ℕ, [], true, false, length, drop, take, IfOk, OnErr};
ghost use Rattle.line_input.specs.Ahead.{Tells, budget};
ghost use Rattle.line_input.specs.Reading.{Refills, Totals};
ghost use Rattle.line_input.specs.Calls.{Went};
ghost use Rattle.line_input.specs.Asking.{Asks};

use crate::buffer::{BUFFER_BYTES, zeros};
use pur_base::{INPUT_BYTES, NoMemory};
use std::alloc::Global;
use std::marker::Model;
use world::{Failed, Source};

/// Bytes that were taken from a source and not yet consumed.
#[derive(Drop)]
pub struct Input {
    buffer: Vec<u8>,
    start: usize,
    end: usize,
    taken: u64,
    ended: bool,
}

impl Model for Input {
    ghost use Rattle.std.specs.Prelude.{take, drop};
    ghost use Rattle.line_input.specs.Ahead.{Ahead, InBuffer};

    ghost Value = { Ahead };

    ghost view = { λ i. record { pending = drop i.start (take i.end i.buffer.items); taken = i.taken; ended = i.ended } };

    ghost invariant = { λ i. InBuffer i.buffer.items i.start i.end i.taken };
}

/// What a refill found.
#[derive(Clone, Copy)]
pub enum Refill {
    Bytes,
    End,
    Limit,
}

/// Takes bytes into the front of a buffer, at most `room`. None come exactly at the end.
fn take_into<S: Source>(into: &mut [u8], room: usize, source: &mut S) -> Result<usize, Failed>
    requires some { 0 < room }
    requires within { room ≤ length into.old }
    ensures room { IfOk result (λ n. n ≤ room) }
    ensures told { (S.source source.old).honest → IfOk result (λ n. take n into.new ++ (S.source source.new).bytes ≡ (S.source source.old).bytes) }
    ensures end { (S.source source.old).honest → IfOk result (λ n. n ≡ 0 → ((S.source source.old).bytes ≡ []) × ((S.source source.new).bytes ≡ [])) }
    ensures failed { (S.source source.old).honest → OnErr result ((S.source source.new).bytes ≡ (S.source source.old).bytes) }
    ensures went { Went S.source S.source_rest result source.old source.new }
{
    source.take(&mut into[..room])
}

/// Takes one byte, which is lost, and tells whether there was one.
fn has_more<S: Source>(source: &mut S) -> Result<bool, Failed>
    ensures more { (S.source source.old).honest → IfOk result (λ more. more ≡ true → (byte : ℕ) × ((S.source source.old).bytes ≡ byte ∷ (S.source source.new).bytes)) }
    ensures none { (S.source source.old).honest → IfOk result (λ more. more ≡ false → ((S.source source.old).bytes ≡ []) × ((S.source source.new).bytes ≡ [])) }
    ensures failed { (S.source source.old).honest → OnErr result ((S.source source.new).bytes ≡ (S.source source.old).bytes) }
    ensures went { Went S.source S.source_rest result source.old source.new }
{
    let mut probe = [0; 1];
    let count = take_into(&mut probe, 1, source)?;
    Ok(count != 0)
}

impl Input {
    pub fn new(alloc: Global) -> Result<Input, NoMemory>
        ensures pending { IfOk result (λ input. input.pending ≡ []) }
        ensures taken { IfOk result (λ input. input.taken ≡ 0) }
        ensures ended { IfOk result (λ input. input.ended ≡ false) }
    {
        let buffer = zeros(alloc, BUFFER_BYTES)?;
        Ok(Input {
            buffer,
            start: 0,
            end: 0,
            taken: 0,
            ended: false,
        })
    }

    pub fn pending(&self) -> &[u8]
        ensures { result.now ≡ self.now.pending }
    {
        &self.buffer[self.start..self.end]
    }

    /// Consumes the first bytes that are pending.
    pub fn consume(&mut self, count: usize)
        requires { count ≤ length self.old.pending }
        ensures pending { self.new.pending ≡ drop count self.old.pending }
        ensures taken { self.new.taken ≡ self.old.taken }
        ensures ended { self.new.ended ≡ self.old.ended }
    {
        self.start += count;
    }

    /// Sees to it that bytes are pending, if there are more.
    pub fn ready<S: Source>(&mut self, source: &mut S) -> Result<Refill, Failed>
        ensures told { IfOk result (λ found. Tells self.old (S.source source.old) → Tells self.new (S.source source.new)
            × Refills found (self.old.pending ++ (S.source source.old).bytes) (self.new.pending ++ (S.source source.new).bytes)) }
        ensures total { IfOk result (λ found. Tells self.old (S.source source.old) →
            Totals (found ≡ Refill.Limit) self.old.taken self.new.taken (length (S.source source.old).bytes) (length (S.source source.new).bytes)) }
        ensures bytes { IfOk result (λ found. found ≡ Refill.Bytes → (0 < length self.new.pending) × (budget self.new ≡ budget self.old)) }
        ensures end { IfOk result (λ found. found ≡ Refill.End → (self.new.ended ≡ true) × (self.new.pending ≡ []) × (budget self.new ≡ budget self.old)) }
        ensures limit { IfOk result (λ found. found ≡ Refill.Limit → (self.new ≡ self.old) × (self.new.pending ≡ [])) }
        ensures failed { OnErr result (Tells self.old (S.source source.old) →
            Tells self.new (S.source source.new) × (self.old.pending ≡ []) × ((S.source source.new).bytes ≡ (S.source source.old).bytes)) }
        ensures asks { Asks S.source S.source_rest result self.old self.new source.old source.new }
    {
        if !self.pending().is_empty() {
            return Ok(Refill::Bytes);
        }
        self.refill(source)
    }

    /// Takes more bytes from the source, where none is pending.
    fn refill<S: Source>(&mut self, source: &mut S) -> Result<Refill, Failed>
        requires { self.old.pending ≡ [] }
        ensures told { IfOk result (λ found. Tells self.old (S.source source.old) → Tells self.new (S.source source.new)
            × Refills found (S.source source.old).bytes (self.new.pending ++ (S.source source.new).bytes)) }
        ensures total { IfOk result (λ found. Tells self.old (S.source source.old) →
            Totals (found ≡ Refill.Limit) self.old.taken self.new.taken (length (S.source source.old).bytes) (length (S.source source.new).bytes)) }
        ensures bytes { IfOk result (λ found. found ≡ Refill.Bytes → (0 < length self.new.pending) × (budget self.new ≡ budget self.old)) }
        ensures end { IfOk result (λ found. found ≡ Refill.End → (self.new.ended ≡ true) × (self.new.pending ≡ []) × (budget self.new ≡ budget self.old)) }
        ensures limit { IfOk result (λ found. found ≡ Refill.Limit → self.new ≡ self.old) }
        ensures limited { self.new.taken ≤ INPUT_BYTES }
        ensures failed { OnErr result (Tells self.old (S.source source.old) →
            Tells self.new (S.source source.new) × ((S.source source.new).bytes ≡ (S.source source.old).bytes)) }
        ensures asks { Asks S.source S.source_rest result self.old self.new source.old source.new }
    {
        if self.ended {
            return Ok(Refill::End);
        }
        self.start = 0;
        self.end = 0;
        let room = (INPUT_BYTES - self.taken).min(BUFFER_BYTES as u64) as usize;
        if room == 0 {
            if has_more(source)? {
                return Ok(Refill::Limit);
            }
            self.ended = true;
            return Ok(Refill::End);
        }
        let count = take_into(&mut self.buffer, room, source)?;
        if count == 0 {
            self.ended = true;
            return Ok(Refill::End);
        }
        self.end = count;
        self.taken += count as u64;
        Ok(Refill::Bytes)
    }
}
