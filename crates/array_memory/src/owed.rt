// What a flattening would give to the first sectors of a medium's range.
ghost use Rattle.std.specs.Prelude.{◌≡◌, ℕ, ◌+◌, ◌<◌, ◌≤◌, ◌^◌, Some, None, IfNone, IfSome, Contains, length, take};
ghost use Rattle.fact_codec.specs.declared.limits.TheConstants.{NUMBER_LIMIT};
ghost use Rattle.pur_base.specs.Facts.{address_key};
ghost use Rattle.pur_base.specs.Says.{Ascends};
ghost use Rattle.pur_base.specs.Visible.{range as range_of};
ghost use Rattle.pur_base.specs.declared.facts.ObjectFact.{ObjectFact};
ghost use Rattle.memory_spec.specs.Memory.{IsSound};
ghost use Rattle.memory_spec.specs.Tables.{facts};
ghost use Rattle.command_spec.specs.Flattening.{HasNoRange, IsLowestRange, MayFlatten};
ghost use Rattle.array_memory.specs.Flat.{AreOwedIn};

use crate::memory::Memory;
use medium_table::Range;
use pur_base::{AddressFact, MediumId, OBJECT_SECTORS, REQUEST_SECTORS, Seq, Table, Target};

/// Writes the addresses that are owed to the sectors of a run to the first places, with numbers from that one on, and says in how many:
/// those of which the medium itself says nothing, and that read as something.
fn put_owed(
    medium: MediumId,
    first: u32,
    number: u64,
    said: &[Option<AddressFact>],
    read: &[Option<Target>],
    given: &mut [AddressFact],
) -> usize
    requires each { length read.now ≡ length said.now }
    requires few { length said.now ≤ length given.old }
    requires sectors { first + length said.now ≤ 2 ^ 32 }
    requires numbers { number + length said.now ≤ 2 ^ 64 }
    ensures few { result ≤ length said.now }
    ensures owed { AreOwedIn medium.0 first number said.now read.now (length said.now) (take result given.new) }
{
    let mut len = 0;
    for i in 0..said.len() {
        if let Some(_) = said[i] {
            continue;
        }
        if let Some(target) = read[i] {
            given[len] = AddressFact {
                medium,
                sector: first + i as u32,
                target,
                seq: Seq(number + len as u64),
            };
            len += 1;
        }
    }
    len
}

impl Memory {
    /// The visible range of a medium in front of which none begins, or `None` where it has none. It takes no memory.
    pub fn lowest(&self, medium: MediumId) -> Option<Range>
        ensures some { IfSome result (IsLowestRange (facts self.now.memory.tables) medium.0) }
        ensures none { IfNone result (HasNoRange self.now.memory medium.0) }
    {
        self.mediums
            .lowest(medium, self.elided.ranges(Table::Medium))
    }

    /// The addresses that are owed to the sectors of a range of an object's medium, from its first one up to an end, by ascending sector, with the next numbers:
    /// they stand in the first places, and it says in how many. It takes no memory.
    pub fn owed(
        &self,
        range: &Range,
        until: u64,
        given: &mut [AddressFact; REQUEST_SECTORS],
    ) -> usize
        requires sound { IsSound self.now.memory }
        requires there { range_of (facts self.now.memory.tables) range.now.medium.0 range.now.start ≡ Some range.now }
        requires of_object { (x : ObjectFact) × Contains self.now.objects x × (x.medium.0 ≡ range.now.medium.0) }
        requires some { range.now.start < until }
        requires within { until ≤ range.now.end }
        requires few { until ≤ range.now.start + REQUEST_SECTORS }
        requires left { self.now.memory.next.sequence + REQUEST_SECTORS + 2 < NUMBER_LIMIT }
        ensures few { result ≤ REQUEST_SECTORS }
        ensures owed { MayFlatten self.now.memory range.now until (take result given.new) }
        ensures ascends { Ascends address_key (take result given.new) }
    {
        self.kept();
        let count = (until - range.start) as usize;
        let mut said = [None; REQUEST_SECTORS];
        let mut read = [None; REQUEST_SECTORS];
        self.owed_in(range, until, &mut said[..count], &mut read[..count], given)
    }

    /// The same with room for what its medium says of each of the sectors, and for what they read as.
    fn owed_in(
        &self,
        range: &Range,
        until: u64,
        said: &mut [Option<AddressFact>],
        read: &mut [Option<Target>],
        given: &mut [AddressFact],
    ) -> usize
        requires sound { IsSound self.now.memory }
        requires there { range_of (facts self.now.memory.tables) range.now.medium.0 range.now.start ≡ Some range.now }
        requires of_object { (x : ObjectFact) × Contains self.now.objects x × (x.medium.0 ≡ range.now.medium.0) }
        requires some { range.now.start < until }
        requires within { until ≤ range.now.end }
        requires end { range.now.end ≤ OBJECT_SECTORS }
        requires left { self.now.memory.next.sequence + REQUEST_SECTORS + 2 < NUMBER_LIMIT }
        requires said { range.now.start + length said.old ≡ until }
        requires read { length read.old ≡ length said.old }
        requires few { length said.old ≤ REQUEST_SECTORS }
        requires given { length given.old ≡ REQUEST_SECTORS }
        ensures few { result ≤ length said.old }
        ensures owed { MayFlatten self.now.memory range.now until (take result given.new) }
        ensures ascends { Ascends address_key (take result given.new) }
    {
        let first = range.start as u32;
        self.addresses.span(
            range.medium,
            first,
            self.elided.ranges(Table::Address),
            said,
        );
        chain_reads::resolve(
            &self.mediums,
            &self.addresses,
            &self.elided,
            range.medium,
            first,
            read,
        );
        put_owed(range.medium, first, self.next.sequence, said, read, given)
    }
}
