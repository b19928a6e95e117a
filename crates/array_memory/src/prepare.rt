ghost use Rattle.std.specs.Prelude.{◌≡◌, OnOk};
ghost use Rattle.pur_base.specs.Plain.{Array};
ghost use Rattle.memory_spec.specs.Memory.{Contents, ReadsAs};
ghost use Rattle.command_spec.specs.Asked.{IsPrepared};
ghost use Rattle.command_spec.specs.Room.{room_of, with_rooms, AtMost, HasNoLessRoom};

use crate::memory::Memory;
use command_spec::{Amounts, NOTHING, STAGED_SECTORS, taken};
use pur_base::{NoMemory, Request};

impl Memory {
    /// Reserves what a request takes. Nothing else changes, whatever is answered.
    /// `NoMemory` is also where more sectors would be staged than there may be.
    pub fn prepare(&mut self, request: &Request) -> Result<(), NoMemory>
        ensures prepared { OnOk result (IsPrepared self.new request.now) }
        ensures room { HasNoLessRoom self.old self.new }
        ensures rest { self.new ≡ with_rooms self.old self.new }
        ensures reads { (contents : Contents) (array : Array) → ReadsAs contents self.old.memory array → ReadsAs contents self.new.memory array }
    {
        let taken = taken(request);
        if STAGED_SECTORS < self.staged.len() || STAGED_SECTORS - self.staged.len() < taken.staged {
            return Err(NoMemory);
        }
        self.reserve(&taken)
    }

    /// Reserves room for these. Nothing else changes, whatever is answered.
    pub(crate) fn reserve(&mut self, amounts: &Amounts) -> Result<(), NoMemory>
        ensures room { OnOk result (AtMost amounts.now (room_of self.new)) }
        ensures no_less { HasNoLessRoom self.old self.new }
        ensures rest { self.new ≡ with_rooms self.old self.new }
    {
        self.reserve_in_tables(amounts)?;
        self.reserve_beside(amounts)
    }

    /// The room of the tables, and that for names.
    fn reserve_in_tables(&mut self, amounts: &Amounts) -> Result<(), NoMemory>
        ensures room { OnOk result (AtMost (record amounts.now { staged = 0; ranges = 0 }) (room_of self.new)) }
        ensures no_less { HasNoLessRoom self.old self.new }
        ensures rest { self.new ≡ with_rooms self.old self.new }
    {
        self.objects.reserve(amounts.names)?;
        self.objects.reserve_facts(amounts.objects)?;
        self.mediums.reserve_facts(amounts.mediums)?;
        self.addresses.reserve_facts(amounts.addresses)?;
        self.elisions.reserve(amounts.elisions)
    }

    /// The room beside them.
    fn reserve_beside(&mut self, amounts: &Amounts) -> Result<(), NoMemory>
        ensures room { OnOk result (AtMost (record NOTHING { staged = amounts.now.staged; ranges = amounts.now.ranges }) (room_of self.new)) }
        ensures no_less { HasNoLessRoom self.old self.new }
        ensures rest { self.new ≡ with_rooms self.old self.new }
    {
        self.elided.reserve_objects(amounts.ranges)?;
        self.staged.reserve(amounts.staged)?;
        Ok(())
    }
}
