ghost use Rattle.std.specs.Prelude.{◌≡◌, ℕ, ◌+◌, ◌<◌, ◌≤◌, ◌^◌, IsTrue, [], length};
ghost use Rattle.lower_tests.specs.Grid.{IsOnGrid, AreOnGrid, AreNumbered};

use address_table::AddressTable;
use chain_reads::resolve;
use elision::Elided;
use medium_table::{MediumTable, Range};
use pur_base::{
    AddressFact, Location, MediumId, OBJECT_SECTORS, REQUEST_SECTORS, SegmentId, Seq, Target,
};
use std::alloc::Global;

/// How many mediums the long chain has above the one that it leads to.
const LONG: u64 = 300;

/// A range without its number.
fn range(medium: u64, start: u64, end: u64, target: u64, target_start: u64) -> Range {
    Range {
        medium: MediumId(medium),
        start,
        end,
        target: MediumId(target),
        target_start,
        seq: Seq(0),
    }
}

/// Where a sector of a medium stands, without its number.
fn stored(medium: u64, sector: u32, index: u16) -> AddressFact {
    AddressFact {
        medium: MediumId(medium),
        sector,
        target: target(index),
        seq: Seq(0),
    }
}

/// That a sector of a medium is zero, without its number.
fn zero(medium: u64, sector: u32) -> AddressFact {
    AddressFact {
        medium: MediumId(medium),
        sector,
        target: Target::Zero,
        seq: Seq(0),
    }
}

fn target(index: u16) -> Target {
    Target::Stored(Location {
        segment: SegmentId(5),
        index,
    })
}

/// Whether a range begins at a multiple of 64, has no more sectors, and leads to a smaller medium.
fn is_on_grid(range: &Range) -> bool
    ensures { IsTrue result → IsOnGrid range.now }
{
    range.start % 64 == 0
        && range.start < range.end
        && range.end <= 1024
        && range.end - range.start <= 64
        && range.target.0 < range.medium.0
        && range.target_start <= 1024
}

/// Puts a range behind the others.
fn lead(mediums: &mut MediumTable, number: u64, range: &Range) -> bool
    requires { AreOnGrid number mediums.old.facts }
    ensures { IsTrue result → AreOnGrid (number + 1) mediums.new.facts }
{
    let range = Range {
        seq: Seq(number),
        ..*range
    };
    if !is_on_grid(&range) {
        return false;
    }
    match mediums.over(&[range]) {
        Ok(()) => true,
        Err(_) => false,
    }
}

/// Puts an address behind the others.
fn say(addresses: &mut AddressTable, number: u64, said: &AddressFact) -> bool
    requires { AreNumbered number addresses.old.facts }
    ensures { IsTrue result → AreNumbered (number + 1) addresses.new.facts }
{
    let fact = AddressFact {
        seq: Seq(number),
        ..*said
    };
    match addresses.put_run(&[fact]) {
        Ok(()) => true,
        Err(_) => false,
    }
}

fn lead_all(mediums: &mut MediumTable, ranges: &[Range]) -> bool
    requires { AreOnGrid 0 mediums.old.facts }
    ensures { IsTrue result → AreOnGrid (length ranges.now) mediums.new.facts }
{
    for i in 0..ranges.len() {
        if !lead(mediums, i as u64, &ranges[i]) {
            return false;
        }
    }
    true
}

fn say_all(addresses: &mut AddressTable, said: &[AddressFact]) -> bool
    requires { AreNumbered 0 addresses.old.facts }
{
    for i in 0..said.len() {
        if !say(addresses, i as u64, &said[i]) {
            return false;
        }
    }
    true
}

/// Leads each medium of a long chain to the next smaller one.
fn lead_long(mediums: &mut MediumTable) -> bool
    requires { AreOnGrid 0 mediums.old.facts }
    ensures { IsTrue result → AreOnGrid LONG mediums.new.facts }
{
    for i in 0..LONG {
        if !lead(mediums, i, &range(i + 2, 0, 64, i + 1, 0)) {
            return false;
        }
    }
    true
}

/// Puts which sectors of a run stand at which index of the segment, and which are zero.
fn put(run: &mut [Option<Target>], stored: &[(usize, u16)], zero: &[usize]) {
    for (sector, index) in stored {
        if *sector < run.len() {
            run[*sector] = Some(target(*index));
        }
    }
    for sector in zero {
        if *sector < run.len() {
            run[*sector] = Some(Target::Zero);
        }
    }
}

/// Whether a run of sectors of a medium reads as this.
fn reads(
    alloc: Global,
    mediums: &MediumTable,
    addresses: &AddressTable,
    medium: u64,
    first: u32,
    expected: &[Option<Target>],
) -> bool
    requires grid { (number : ℕ) × AreOnGrid number mediums.now.facts }
    requires few { length expected.now ≤ REQUEST_SECTORS }
    requires sectors { first + length expected.now ≤ OBJECT_SECTORS }
{
    let elided = Elided::new(alloc);
    let mut out = [None; REQUEST_SECTORS];
    let out = &mut out[..expected.len()];
    resolve(mediums, addresses, &elided, MediumId(medium), first, out);
    *out == *expected
}

/// Medium 3 leads to medium 2 up to sector 50, and from 64 to 66 to medium 1, and medium 2 leads to medium 1 up to 108.
fn three_lead(mediums: &mut MediumTable) -> bool
    requires { AreOnGrid 0 mediums.old.facts }
    ensures { IsTrue result → AreOnGrid 3 mediums.new.facts }
{
    lead_all(
        mediums,
        &[
            range(2, 64, 108, 1, 164),
            range(3, 0, 50, 2, 60),
            range(3, 64, 66, 1, 300),
        ],
    )
}

/// Each of the three mediums says something of the run, and medium 2 also of what medium 3 says itself.
fn three_say(addresses: &mut AddressTable) -> bool
    requires { AreNumbered 0 addresses.old.facts }
{
    say_all(
        addresses,
        &[
            zero(1, 204),
            stored(1, 207, 1),
            stored(1, 301, 2),
            stored(2, 105, 3),
            stored(2, 106, 4),
            stored(2, 109, 5),
            stored(3, 45, 6),
            zero(3, 55),
        ],
    )
}

fn three_read(alloc: Global, mediums: &MediumTable, addresses: &AddressTable) -> bool
    requires { AreOnGrid 3 mediums.now.facts }
{
    let mut expected = [None; 24];
    let stored = [(1, 6), (2, 4), (3, 1), (5, 5), (21, 2)];
    put(&mut expected, &stored, &[0, 11]);
    reads(alloc, mediums, addresses, 3, 44, &expected)
}

fn chain_of_three_reads(alloc: Global) -> bool {
    let Ok(mut mediums) = MediumTable::new(alloc, 3) else {
        return false;
    };
    let Ok(mut addresses) = AddressTable::new(alloc) else {
        return false;
    };
    three_lead(&mut mediums) && three_say(&mut addresses) && three_read(alloc, &mediums, &addresses)
}

/// Of the whole run only its first, its last and one more sector stand somewhere, at the end of the chain and in its middle.
fn long_say(addresses: &mut AddressTable) -> bool
    requires { AreNumbered 0 addresses.old.facts }
{
    say_all(
        addresses,
        &[stored(1, 0, 1), zero(1, 63), stored(150, 7, 2)],
    )
}

fn long_reads(alloc: Global, mediums: &MediumTable, addresses: &AddressTable) -> bool
    requires { AreOnGrid LONG mediums.now.facts }
{
    let mut expected = [None; REQUEST_SECTORS];
    put(&mut expected, &[(0, 1), (7, 2)], &[63]);
    reads(alloc, mediums, addresses, LONG + 1, 0, &expected)
}

fn long_chain_reads(alloc: Global) -> bool {
    let Ok(mut mediums) = MediumTable::new(alloc, 300) else {
        return false;
    };
    let Ok(mut addresses) = AddressTable::new(alloc) else {
        return false;
    };
    lead_long(&mut mediums) && long_say(&mut addresses) && long_reads(alloc, &mediums, &addresses)
}

#[test]
fn each_holds(rt: HostRuntime) {
    assert!(rt; chain_of_three_reads(rt.alloc()) && long_chain_reads(rt.alloc()));
}
