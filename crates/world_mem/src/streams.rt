// The input and the output of a world in memory.
ghost use Rattle.std.specs.Prelude.{◌≡◌, ◌⊎◌, ◌<◌, ◌≤◌, [], length, take};

use crate::calls::record;
use crate::{Call, MemWorld};
use world::{Failed, Sink, Source, World};

// Copies the first bytes, as many as there is room for, and at most so many.
fn copy_front(from: &[u8], into: &mut [u8], most: usize) -> usize
    ensures room { result ≤ length into.old }
    ensures inside { result ≤ length from.now }
    ensures most { result ≤ most }
    ensures copied { take result into.new ≡ take result from.now }
    ensures none { 0 < most → result ≡ 0 → (into.new ≡ []) ⊎ (from.now ≡ []) }
{
    let n = into.len().min(from.len()).min(most);
    into[..n].copy_from_slice(&from[..n]);
    n
}

impl Source for MemWorld {
    ghost use Rattle.std.specs.Prelude.{◌≡◌, ◌⊎◌, ◌↔◌, ◌≤◌, true, length, IfOk, IsErr, OnErr};
    ghost use Rattle.world.specs.Counts.{Counts};
    ghost use Rattle.world.specs.Streams.{WasTaken};
    ghost use Rattle.world_mem.specs.Past.{shelved, sourced, piece_of, AllButInputStays, take_will_fail};
    ghost use Rattle.world_mem.specs.Laws.{all_but_input_stays};

    ghost source = { sourced };

    ghost source_rest = { AllButInputStays };

    ghost source_rest_stays = { all_but_input_stays };

    fn take(&mut self, into: &mut [u8]) -> Result<usize, Failed>
        ensures room { IfOk result (λ n. n ≤ length into.old) }
        ensures honest { (sourced self.old).honest ↔ (sourced self.new).honest }
        ensures taken { (sourced self.old).honest → WasTaken result into.new (sourced self.old).bytes (sourced self.new).bytes }
        ensures counts { Counts result (sourced self.old).faults (sourced self.new).faults }
        ensures rest { AllButInputStays self.old self.new }
        ensures piece { IfOk result (λ n. n ≤ piece_of self.old) }
        // It fails where it is told to, and else only where its record finds no memory.
        ensures only { OnErr result ((take_will_fail self.old ≡ true) ⊎ (shelved self.new).lapsed) }
        ensures told { take_will_fail self.old ≡ true → IsErr result }
    {
        if self.takes.is_next_named() {
            self.source_faults = self.source_faults.saturating_add(1);
            return Err(Failed);
        }
        if !record(&mut self.calls, &mut self.starved, Call::Take(self.taken)) {
            self.source_faults = self.source_faults.saturating_add(1);
            return Err(Failed);
        }
        let n = copy_front(&self.input[self.taken..], into, self.piece);
        self.taken += n;
        Ok(n)
    }
}

impl Sink for MemWorld {
    ghost use Rattle.std.specs.Prelude.{◌≡◌, ◌⊎◌, ◌↔◌, ◌<◌, ◌≤◌, true, length, IfOk, IsErr, OnErr};
    ghost use Rattle.world.specs.Counts.{Counts};
    ghost use Rattle.world.specs.Streams.{WasGiven};
    ghost use Rattle.world_mem.specs.Past.{shelved, sunk, piece_of, AllButOutputStays, give_will_fail};
    ghost use Rattle.world_mem.specs.Laws.{all_but_output_stays};

    ghost sink = { sunk };

    ghost sink_rest = { AllButOutputStays };

    ghost sink_rest_stays = { all_but_output_stays };

    fn give(&mut self, from: &[u8]) -> Result<usize, Failed>
        ensures within { IfOk result (λ n. n ≤ length from.now) }
        ensures some { 0 < length from.now → IfOk result (λ n. 0 < n) }
        ensures honest { (sunk self.old).honest ↔ (sunk self.new).honest }
        ensures given { (sunk self.old).honest → WasGiven result from.now (sunk self.old).bytes (sunk self.new).bytes }
        ensures counts { Counts result (sunk self.old).faults (sunk self.new).faults }
        ensures rest { AllButOutputStays self.old self.new }
        ensures piece { IfOk result (λ n. n ≤ piece_of self.old) }
        // It fails where it is told to, and else only where its record finds no memory.
        ensures only { OnErr result ((give_will_fail self.old ≡ true) ⊎ (shelved self.new).lapsed) }
        ensures told { give_will_fail self.old ≡ true → IsErr result }
    {
        if self.gives.is_next_named() {
            self.sink_faults = self.sink_faults.saturating_add(1);
            return Err(Failed);
        }
        let given = self.output.len();
        let n = from.len().min(self.piece);
        if self.calls.reserve(1).is_err() || self.output.extend_from_slice(&from[..n]).is_err() {
            self.starved = true;
            self.sink_faults = self.sink_faults.saturating_add(1);
            return Err(Failed);
        }
        match self.calls.push(Call::Give(given)) {
            Ok(()) => Ok(n),
            Err(_) => unreachable!(),
        }
    }
}

impl World for MemWorld {
    ghost use Rattle.std.proofs.Common.{refl};

    ghost one_clock = { λ w h. refl };

    ghost take_is_told = { λ a b rest h. rest.told };

    ghost shelf_keeps_source = { λ a b rest. rest.source };

    ghost shelf_keeps_sink = { λ a b rest. rest.sink };

    ghost take_keeps_shelf = { λ a b rest. rest.shelf };

    ghost take_keeps_sink = { λ a b rest. rest.sink };

    ghost give_keeps_shelf = { λ a b rest. rest.shelf };

    ghost give_keeps_source = { λ a b rest. rest.source };
}
