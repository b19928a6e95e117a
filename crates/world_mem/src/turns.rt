// Which of the next calls fail.
ghost use Rattle.std.specs.Prelude.{◌≡◌, ◌+◌, ◌-◌, ◌^◌, ◌≤◌, [], ◌∷◌, ◌++◌, min, OnOk, OnErr};

use pur_base::NoMemory;
use std::alloc::Global;

/// The calls so far, and the numbers of those that are to fail.
#[derive(Drop)]
pub struct Turns {
    pub(crate) made: u64,
    pub(crate) to_fail: Vec<u64>,
}

impl Turns {
    ghost use Rattle.world_mem.specs.Parts.{is_named};

    pub(crate) fn new(alloc: Global) -> Turns
        ensures made { result.made ≡ 0 }
        ensures none { result.to_fail.items ≡ [] }
    {
        Turns {
            made: 0,
            to_fail: Vec::new(alloc),
        }
    }

    /// Counts a call, and says whether it is to fail.
    pub(crate) fn is_next_named(&mut self) -> bool
        ensures asked { result ≡ is_named self.old }
        ensures same { self.new.to_fail.items ≡ self.old.to_fail.items }
    {
        let is_named = self.to_fail.contains(&self.made);
        self.made = self.made.saturating_add(1);
        is_named
    }

    /// Names the nth next call, counted from 1.
    pub(crate) fn name(&mut self, nth: u64) -> Result<(), NoMemory>
        requires { 1 ≤ nth }
        ensures ok { OnOk result (self.new.to_fail.items ≡ self.old.to_fail.items ++ min (self.old.made + (nth - 1)) (2 ^ 64 - 1) ∷ []) }
        ensures made { self.new.made ≡ self.old.made }
        ensures err { OnErr result (self.new.to_fail.items ≡ self.old.to_fail.items) }
    {
        self.to_fail.push(self.made.saturating_add(nth - 1))?;
        Ok(())
    }
}
