// The first sectors of a medium's lowest range get addresses of their own, and the range then begins behind them.
ghost use Rattle.std.specs.Prelude.{◌≡◌, ◌⊎◌, ◌↔◌, ℕ, ◌+◌, ◌-◌, ◌<◌, ◌≤◌, ◌^◌, Contains, length};
ghost use Rattle.fact_codec.specs.declared.limits.TheConstants.{NUMBER_LIMIT};
ghost use Rattle.pur_base.specs.Facts.{address_key};
ghost use Rattle.pur_base.specs.Says.{Ascends};
ghost use Rattle.pur_base.specs.declared.facts.MediumFact.{MediumFact};
ghost use Rattle.medium_table.specs.Ranges.{cut_facts};
ghost use Rattle.pyramid.specs.Layers.{facts_in};
ghost use Rattle.pur_base.specs.Plain.{Array};
ghost use Rattle.memory_spec.specs.Memory.{Contents, IsSound, ReadsAs};
ghost use Rattle.memory_spec.specs.Tables.{facts};
ghost use Rattle.command_spec.specs.declared.amounts.TheConstants.{NOTHING};
ghost use Rattle.command_spec.specs.Flattening.{HasFlattened, IsLowestRange, MayFlatten, flattened};
ghost use Rattle.command_spec.specs.Kept.{HasSamePatches};
ghost use Rattle.command_spec.specs.Room.{room_of, AtMost, TakesOnly};

use crate::memory::Memory;
use command_spec::laws_of_flattening;
use medium_table::Range;
use pur_base::{AddressFact, Seq, Table};

impl Memory {
    /// Takes the front of a medium's lowest range away, with the next numbers.
    fn cut(&mut self, range: &Range, until: u32)
        requires lowest { IsLowestRange (facts self.old.memory.tables) range.now.medium.0 range.now }
        requires some { range.now.start < until }
        requires within { until ≤ range.now.end }
        requires fits { range.now.target_start + (until - range.now.start) < 2 ^ 64 }
        requires left { self.old.memory.next.sequence + 2 < NUMBER_LIMIT }
        requires room { length (cut_facts range.now until self.old.memory.next.sequence) ≤ self.old.memory.tables.mediums.room }
        ensures mediums { (f : MediumFact) → Contains (facts_in self.new.memory.tables.mediums) f
            ↔ (Contains (facts_in self.old.memory.tables.mediums) f ⊎ Contains (cut_facts range.now until self.old.memory.next.sequence) f) }
        ensures patches { self.new.memory.tables.mediums.patches ≡ self.old.memory.tables.mediums.patches }
        ensures room_left { TakesOnly self.old self.new (record NOTHING { mediums = length (cut_facts range.now until self.old.memory.next.sequence) }) }
        ensures rest { self.new ≡ record self.old {
          memory = record self.old.memory {
            tables = record self.old.memory.tables { mediums = self.new.memory.tables.mediums };
            next = record self.old.memory.next { sequence = self.old.memory.next.sequence + length (cut_facts range.now until self.old.memory.next.sequence) };
          };
        } }
    {
        let seq = Seq(self.next.sequence);
        self.mediums.facts.layers();
        let elided = self.elided.ranges(Table::Medium);
        if self
            .mediums
            .cut_front(range.medium, until, seq, elided)
            .is_err()
        {
            unreachable!()
        }
        self.mediums.facts.layers();
        self.next.sequence += if u64::from(until) < range.end { 2 } else { 1 };
    }

    /// Gives these addresses to sectors of a medium's lowest range up to an end, and takes the range's front away. It takes no memory.
    pub fn flatten(&mut self, range: &Range, until: u32, given: &[AddressFact])
        requires sound { IsSound self.old.memory }
        requires may { MayFlatten self.old.memory range.now until given.now }
        requires lowest { IsLowestRange (facts self.old.memory.tables) range.now.medium.0 range.now }
        requires ascends { Ascends address_key given.now }
        requires room { AtMost (flattened self.old.memory range.now until given.now) (room_of self.old) }
        ensures flattened { HasFlattened self.old.memory self.new.memory range.now until given.now }
        ensures sound { IsSound self.new.memory }
        ensures reads { (contents : Contents) (array : Array) → ReadsAs contents self.old.memory array → ReadsAs contents self.new.memory array }
        ensures patches { HasSamePatches self.old.memory.tables self.new.memory.tables }
        ensures objects { self.new.objects ≡ self.old.objects }
        ensures segments { self.new.segments ≡ self.old.segments }
        ensures elided { self.new.elided ≡ self.old.elided }
        ensures room_left { TakesOnly self.old self.new (flattened self.old.memory range.now until given.now) }
    {
        laws_of_flattening();
        self.give(given);
        self.cut(range, until);
    }
}
