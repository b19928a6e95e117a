ghost use Rattle.std.specs.Prelude.{◌≡◌, ◌⊎◌, ◌↔◌, ℕ, ◌+◌, ◌<◌, ◌≤◌, [], IsTrue, IsOk, OnOk, OnErr};
ghost use Rattle.std.specs.Vec.{vec_len, vec_capacity};
ghost use Rattle.pur_base.specs.Visible.{is_within};
ghost use Rattle.elision.specs.Ranges.{AreApart, with_range};

use pur_base::NoMemory;
use std::alloc::Global;
use std::marker::Model;

/// A set of ids. Contracts see its ranges, in order, of which none touch, and how many more there is room for.
#[derive(Drop)]
pub struct Ranges {
    ranges: Vec<(u64, u64)>,
}

impl Model for Ranges {
    ghost use Rattle.std.specs.Prelude.{◌-◌};
    ghost use Rattle.std.specs.Vec.{vec_len, vec_capacity};
    ghost use Rattle.elision.specs.Ranges.{AreApart, IdSet};

    ghost Value = { IdSet };

    ghost view = { λ a. record { ranges = a.ranges.items; room = vec_capacity a.ranges - vec_len a.ranges } };

    ghost invariant = { λ a. AreApart a.ranges.items };
}

impl Ranges {
    /// No ids.
    pub fn new(alloc: Global) -> Ranges
        ensures { result.ranges ≡ [] }
    {
        Ranges {
            ranges: Vec::new(alloc),
        }
    }

    /// The ranges, in order, of which none touch.
    pub fn ranges(&self) -> &[(u64, u64)]
        ensures value { result.now ≡ self.now.ranges }
        ensures apart { AreApart result.now }
    {
        &self.ranges
    }

    /// Reserves room for so many more ranges. Nothing else changes, whatever is answered.
    pub fn reserve(&mut self, additional: usize) -> Result<(), NoMemory>
        ensures room { OnOk result (additional ≤ self.new.room) }
        ensures room_left { self.old.room ≤ self.new.room }
        ensures rest { self.new ≡ record self.old { room = self.new.room } }
    {
        self.ranges.reserve(additional)?;
        Ok(())
    }

    /// Takes in the ids from the first to the last. It takes no memory where there is room, and an `Err` changes nothing.
    pub fn insert(&mut self, first: u64, last: u64) -> Result<(), NoMemory>
        requires { first ≤ last }
        ensures ids { OnOk result ((id : ℕ) → IsTrue (is_within self.new.ranges id) ↔ (IsTrue (is_within self.old.ranges id) ⊎ ((first ≤ id) × (id ≤ last)))) }
        ensures refused { OnErr result (self.new ≡ self.old) }
        ensures room { 0 < self.old.room → IsOk result }
        ensures room_left { self.old.room ≤ self.new.room + 1 }
    {
        self.ranges.reserve(1)?;
        put_range(&mut self.ranges, first, last)?;
        Ok(())
    }
}

/// Puts a range in its place, and takes those out that it overlaps or touches. It takes no memory.
fn put_range(ranges: &mut Vec<(u64, u64)>, first: u64, last: u64) -> Result<(), NoMemory>
    requires { vec_len ranges.old < vec_capacity ranges.old }
    ensures ok { IsOk result }
    ensures value { ranges.new.items ≡ with_range first last ranges.old.items }
    ensures len { vec_len ranges.new ≤ vec_len ranges.old + 1 }
    ensures capacity { vec_capacity ranges.old ≤ vec_capacity ranges.new }
{
    let mut low = first;
    let mut high = last;
    let mut i = 0;
    while i < ranges.len() {
        let (start, end) = ranges[i];
        if end < low && end < low - 1 {
            i += 1;
        } else if high < start && high < start - 1 {
            break;
        } else {
            low = low.min(start);
            high = high.max(end);
            ranges.remove(i);
        }
    }
    ranges.insert(i, (low, high))?;
    Ok(())
}
