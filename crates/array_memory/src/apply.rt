ghost use Rattle.std.specs.Prelude.{◌≡◌, ◌⊎◌, ◌↔◌, ℕ, ◌+◌, ◌<◌, ◌≤◌, ◌^◌, [], List, Some, None, Option, Contains, length, replicate};
ghost use Rattle.pur_base.specs.Facts.{address_key};
ghost use Rattle.pur_base.specs.Grammar.{data_count};
ghost use Rattle.pur_base.specs.Says.{Ascends};
ghost use Rattle.pur_base.specs.Sectors.{filled};
ghost use Rattle.pyramid.specs.Layers.{facts_in};
ghost use Rattle.memory_spec.specs.Adding.{address_facts};
ghost use Rattle.command_spec.specs.Asked.{AreLeft, HasSpan, IsAllowed, IsPrepared};
ghost use Rattle.command_spec.specs.Done.{HasDone};
ghost use Rattle.command_spec.specs.Put.{AreNextAddresses, IsPut};
ghost use Rattle.command_spec.specs.Room.{TakesOnly};
ghost use Rattle.command_spec.specs.Runs.{targets_from, AreIndices};

use crate::memory::Memory;
use crate::runs::{stage_all, stage_filled, write_run};
use boot_codec::NextNumbers;
use command_spec::{NOTHING, STAGED_SECTORS};
use fact_codec::NUMBER_LIMIT;
use pur_base::{
    AddressFact, MediumId, Name, OBJECT_SECTORS, ObjectFact, ObjectId, ObjectKind, REQUEST_SECTORS,
    Request, SECTOR_BYTES, Sector, Seq, Target,
};

/// What a place of a run holds before it is written.
const BLANK: AddressFact = AddressFact {
    medium: MediumId(0),
    sector: 0,
    target: Target::Zero,
    seq: Seq(0),
};

impl Memory {
    /// The visible object of a name that is there.
    pub(crate) fn object_of(&self, name: &Name) -> ObjectFact
        requires { (x : ObjectFact) × Contains self.now.objects x × (x.name ≡ name.now) }
        ensures is { (x : ObjectFact) → Contains self.now.objects x → x.name ≡ name.now → result ≡ x }
        ensures medium { result.medium.0 < self.now.memory.next.medium }
        ensures size { result.sectors < 2 ^ 32 }
    {
        // Read for it alone that each name stands once.
        let _len = self.objects.len();
        match self.objects.get(name) {
            Some(object) => object,
            None => unreachable!(),
        }
    }

    /// Takes in addresses with the next numbers, by ascending sector.
    pub(crate) fn give(&mut self, given: &[AddressFact])
        requires next { AreNextAddresses self.old.memory.next given.now }
        requires ascends { Ascends address_key given.now }
        requires left { self.old.memory.next.sequence + length given.now < NUMBER_LIMIT }
        requires room { length given.now ≤ self.old.memory.tables.addresses.room }
        ensures addresses { (f : AddressFact) → Contains (facts_in self.new.memory.tables.addresses) f ↔ (Contains (facts_in self.old.memory.tables.addresses) f ⊎ Contains given.now f) }
        ensures patches { self.new.memory.tables.addresses.patches ≡ self.old.memory.tables.addresses.patches }
        ensures room_left { TakesOnly self.old self.new (record NOTHING { addresses = length given.now }) }
        ensures rest { self.new ≡ record self.old {
          memory = record self.old.memory {
            tables = record self.old.memory.tables { addresses = self.new.memory.tables.addresses };
            next = record self.old.memory.next { sequence = self.old.memory.next.sequence + length given.now };
          };
        } }
    {
        self.addresses.facts.layers();
        if self.addresses.put_run(given).is_err() {
            unreachable!()
        }
        self.addresses.facts.layers();
        self.next.sequence += given.len() as u64;
    }

    /// Puts an address for each sector of a medium's span: sectors staged from an index on, or zeros.
    fn put(&mut self, medium: MediumId, first: u32, staged: Option<u16>, count: u8)
        requires medium { medium.0 < self.old.memory.next.medium }
        requires few { count ≤ REQUEST_SECTORS }
        requires sectors { first + count ≤ 2 ^ 32 }
        requires staged { AreIndices staged count }
        requires numbers { AreLeft self.old.memory.next }
        requires room { count ≤ self.old.memory.tables.addresses.room }
        ensures addresses { (f : AddressFact) → Contains (facts_in self.new.memory.tables.addresses) f
            ↔ (Contains (facts_in self.old.memory.tables.addresses) f ⊎ Contains (address_facts medium.0 first self.old.memory.next.sequence (targets_from staged 0 count)) f) }
        ensures patches { self.new.memory.tables.addresses.patches ≡ self.old.memory.tables.addresses.patches }
        ensures room_left { TakesOnly self.old self.new (record NOTHING { addresses = count }) }
        ensures rest { self.new ≡ record self.old {
          memory = record self.old.memory {
            tables = record self.old.memory.tables { addresses = self.new.memory.tables.addresses };
            next = record self.old.memory.next { sequence = self.old.memory.next.sequence + count };
          };
        } }
    {
        let mut run = [BLANK; REQUEST_SECTORS];
        let run = &mut run[..usize::from(count)];
        write_run(medium, first, self.next.sequence, staged, run);
        self.give(run);
    }

    /// Stages sectors, and puts them in a volume's span.
    fn write(&mut self, name: &Name, lba: u64, sectors: &[Sector])
        requires span { HasSpan self.old.objects name.now lba (length sectors.now) }
        requires numbers { AreLeft self.old.memory.next }
        requires room { length sectors.now ≤ self.old.memory.tables.addresses.room }
        requires staged_room { length sectors.now ≤ self.old.staged_room }
        requires indices { length self.old.memory.staged + length sectors.now ≤ STAGED_SECTORS }
        ensures put { IsPut self.old self.new name.now lba (length sectors.now) (targets_from (Some (length self.old.memory.staged)) 0 (length sectors.now)) sectors.now }
        ensures room_left { TakesOnly self.old self.new (record NOTHING { addresses = length sectors.now; staged = length sectors.now }) }
        ensures sectors { (sector : List ℕ) → Contains sectors.now sector → length sector ≡ SECTOR_BYTES }
    {
        let object = self.object_of(name);
        let index = self.staged.len() as u16;
        stage_all(&mut self.staged, sectors);
        let count = sectors.len() as u8;
        self.put(object.medium, lba as u32, Some(index), count);
    }

    /// Stages sectors of one byte, and puts them in a volume's span.
    fn fill(&mut self, name: &Name, lba: u64, count: u8, byte: u8)
        requires span { HasSpan self.old.objects name.now lba count }
        requires numbers { AreLeft self.old.memory.next }
        requires room { count ≤ self.old.memory.tables.addresses.room }
        requires staged_room { count ≤ self.old.staged_room }
        requires indices { length self.old.memory.staged + count ≤ STAGED_SECTORS }
        ensures put { IsPut self.old self.new name.now lba count (targets_from (Some (length self.old.memory.staged)) 0 count) (replicate count (filled byte)) }
        ensures room_left { TakesOnly self.old self.new (record NOTHING { addresses = count; staged = count }) }
    {
        let object = self.object_of(name);
        let index = self.staged.len() as u16;
        stage_filled(&mut self.staged, byte, count);
        self.put(object.medium, lba as u32, Some(index), count);
    }

    /// Puts in a volume's span that it reads as zeros.
    fn zero(&mut self, name: &Name, lba: u64, count: u8)
        requires span { HasSpan self.old.objects name.now lba count }
        requires numbers { AreLeft self.old.memory.next }
        requires room { count ≤ self.old.memory.tables.addresses.room }
        ensures put { IsPut self.old self.new name.now lba count (targets_from None 0 count) [] }
        ensures room_left { TakesOnly self.old self.new (record NOTHING { addresses = count }) }
    {
        let object = self.object_of(name);
        self.put(object.medium, lba as u32, None, count);
    }

    /// Does a logged request that is allowed and prepared. It takes no memory.
    pub fn apply(&mut self, request: &Request, sectors: &[Sector])
        requires allowed { IsAllowed self.old.objects request.now }
        requires numbers { AreLeft self.old.memory.next }
        requires prepared { IsPrepared self.old request.now }
        requires sectors { length sectors.now ≡ data_count request.now }
        ensures { HasDone self.old self.new request.now sectors.now }
    {
        self.kept();
        match request {
            Request::Create {
                name,
                sectors: size,
            } => self.create(*name, *size as u32),
            Request::Write { name, lba, .. } => self.write(name, *lba, sectors),
            Request::Fill {
                name,
                lba,
                count,
                byte,
            } => self.fill(name, *lba, *count, *byte),
            Request::Zero { name, lba, count } => self.zero(name, *lba, *count),
            Request::Snapshot { name, new } => self.snapshot(name, *new),
            Request::Clone { name, new } => self.clone_of(name, *new),
            Request::Copy {
                name,
                lba,
                to,
                to_lba,
                count,
            } => self.copy(name, *lba, to, *to_lba, *count),
            Request::Destroy { name } => self.destroy(name),
            _ => unreachable!(),
        }
    }
}
