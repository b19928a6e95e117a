// How a test drives a world in memory, and what it sees of it.
ghost use Rattle.std.specs.Prelude.{◌≡◌, ◌<◌, ◌≤◌, ◌∷◌, [], ◌++◌, true, IsTrue, ◌↔◌, OnOk, OnErr};

use crate::{Call, MemWorld};
use pur_base::NoMemory;

impl MemWorld {
    ghost use Rattle.pur_base.specs.declared.device.Device.{Device};
    ghost use Rattle.world.specs.Streams.{SameStream};
    ghost use Rattle.world_mem.specs.Parts.{nth_call};
    ghost use Rattle.world_mem.specs.Past.{shelved, sourced, sunk, view, forgotten, piece_of, plan_on, takes_to_fail, takes_made, gives_to_fail, gives_made, SamePlans, SameWorld};

    /// From now on a take and a give pass at most so many bytes.
    pub fn set_piece(&mut self, bytes: usize)
        requires { 0 < bytes }
        ensures piece { piece_of self.new ≡ bytes }
        ensures same { SameWorld self.old self.new }
        ensures plans { SamePlans self.old self.new }
    {
        self.piece = bytes;
    }

    /// The nth next take fails, counted from 1.
    pub fn fail_take(&mut self, nth: u64) -> Result<(), NoMemory>
        requires { 1 ≤ nth }
        ensures ok { OnOk result (takes_to_fail self.new ≡ takes_to_fail self.old ++ nth_call (takes_made self.old) nth ∷ []) }
        ensures err { OnErr result (takes_to_fail self.new ≡ takes_to_fail self.old) }
        ensures same { SameWorld self.old self.new }
        ensures others { ((d : Device) → plan_on self.new d ≡ plan_on self.old d) × (gives_to_fail self.new ≡ gives_to_fail self.old) }
    {
        self.takes.name(nth)
    }

    /// The nth next give fails, counted from 1.
    pub fn fail_give(&mut self, nth: u64) -> Result<(), NoMemory>
        requires { 1 ≤ nth }
        ensures ok { OnOk result (gives_to_fail self.new ≡ gives_to_fail self.old ++ nth_call (gives_made self.old) nth ∷ []) }
        ensures err { OnErr result (gives_to_fail self.new ≡ gives_to_fail self.old) }
        ensures same { SameWorld self.old self.new }
        ensures others { ((d : Device) → plan_on self.new d ≡ plan_on self.old d) × (takes_to_fail self.new ≡ takes_to_fail self.old) }
    {
        self.gives.name(nth)
    }

    /// More input, behind what is left.
    pub fn feed(&mut self, input: &[u8]) -> Result<(), NoMemory>
        ensures ok { OnOk result ((sourced self.new).bytes ≡ (sourced self.old).bytes ++ input.now) }
        ensures err { OnErr result ((sourced self.new).bytes ≡ (sourced self.old).bytes) }
        ensures faults { (sourced self.new).faults ≡ (sourced self.old).faults }
        ensures shelf { view self.new ≡ view self.old }
        ensures sink { SameStream (sunk self.old) (sunk self.new) }
        ensures plans { SamePlans self.old self.new }
    {
        self.input.extend_from_slice(input)?;
        Ok(())
    }

    /// The output so far.
    pub fn output(&self) -> &[u8]
        ensures { result.now ≡ (sunk self.now).bytes }
    {
        &self.output
    }

    /// The calls since the last `forget`, each with what undoes it.
    pub fn calls(&self) -> &[Call]
        ensures { result.now ≡ (view self.now).calls }
    {
        &self.calls
    }

    /// Forgets the calls so far: nothing is claimed of a stop before this.
    pub fn forget(&mut self)
        ensures forgets { view self.new ≡ forgotten (view self.old) }
        ensures source { SameStream (sourced self.old) (sourced self.new) }
        ensures sink { SameStream (sunk self.old) (sunk self.new) }
        ensures plans { SamePlans self.old self.new }
    {
        self.calls.clear();
    }

    /// Whether a call ever found no memory for its record. Then it failed, and may have left no trace in the record.
    pub fn starved(&self) -> bool
        ensures { IsTrue result ↔ (shelved self.now).lapsed }
    {
        self.starved
    }
}
