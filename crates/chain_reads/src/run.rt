ghost use Rattle.std.specs.Prelude.{◌≡◌, ℕ, ◌+◌, ◌<◌, ◌≤◌, ◌^◌, IsTrue, Some, None, length, slice_get, slice_index_or};
ghost use Rattle.std.specs.Option.{unwrap_or};
ghost use Rattle.pur_base.specs.Facts.{Facts};
ghost use Rattle.pur_base.specs.Mediums.{Reads};
ghost use Rattle.pur_base.specs.Unwritten.{ReadsAt};
ghost use Rattle.chain_reads.specs.Chains.{AreChains};
ghost use Rattle.chain_reads.specs.Cursors.{behind, cursor_at, weight, AllFollow, AreOf, IsSaidOf};

use crate::chains::Chains;
use crate::cursor::{Cursor, Spot};
use address_table::AddressTable;
use elision::Elided;
use medium_table::MediumTable;
use pur_base::{AddressFact, MediumId, OBJECT_SECTORS, REQUEST_SECTORS, Table, Target};

/// Puts each cursor at its sector of a run.
fn start(cursors: &mut [Cursor], from: Spot)
    requires { from.sector + length cursors.old ≤ 2 ^ 32 }
    ensures { (j : ℕ) → j < length cursors.new → cursor_at cursors.new j ≡ Cursor.At (behind from j) }
{
    for j in 0..cursors.len() {
        cursors[j] = Cursor::At(from.behind(j as u32));
    }
}

/// Settles each cursor.
fn settle_all(chains: &Chains, cursors: &mut [Cursor])
    requires tables { (f : Facts) × AreOf f chains.now }
    requires few { length cursors.old ≤ REQUEST_SECTORS }
    ensures follows { (f : Facts) → AreOf f chains.now → AllFollow f cursors.old cursors.new }
    ensures settled { (j : ℕ) → j < length cursors.new → weight (cursor_at cursors.new j) ≡ 0 }
{
    for i in 0..cursors.len() {
        chains.settle(cursors, i);
    }
}

/// Writes out what settled cursors read as.
fn answer(cursors: &[Cursor], out: &mut [Option<Target>])
    requires each { length out.old ≡ length cursors.now }
    requires settled { (j : ℕ) → j < length cursors.now → weight (cursor_at cursors.now j) ≡ 0 }
    ensures each { length out.new ≡ length cursors.now }
    ensures answers { (j : ℕ) → j < length out.new → cursor_at cursors.now j ≡ Cursor.Settled (slice_index_or out.new j None) }
{
    for j in 0..out.len() {
        out[j] = cursors[j].answer();
    }
}

/// Writes out what a medium itself says of a run, and tells whether it says it of each sector.
fn answer_said(said: &[Option<AddressFact>], out: &mut [Option<Target>]) -> bool
    requires each { length out.old ≡ length said.now }
    ensures each { length out.new ≡ length said.now }
    ensures answers { IsTrue result → (j : ℕ) → j < length out.new → (a : AddressFact) × (slice_index_or said.now j None ≡ Some a) × (slice_index_or out.new j None ≡ Some a.target) }
{
    for j in 0..out.len() {
        match said[j] {
            Some(fact) => out[j] = Some(fact.target),
            None => return false,
        }
    }
    true
}

/// What the sectors of a run read as, of which a medium itself says this.
fn resolve_each(
    chains: &Chains,
    from: Spot,
    said: &[Option<AddressFact>],
    out: &mut [Option<Target>],
)
    requires tables { (f : Facts) × AreOf f chains.now }
    requires few { length out.old ≤ REQUEST_SECTORS }
    requires each { length said.now ≡ length out.old }
    requires fits { from.sector + length out.old ≤ 2 ^ 32 }
    requires said { (f : Facts) → AreOf f chains.now → IsSaidOf f from said.now }
    ensures each { length out.new ≡ length out.old }
    ensures answers { (f : Facts) → AreOf f chains.now
        → (i : ℕ) → i < length out.new → ReadsAt f from.medium.0 (from.sector + i) (slice_index_or out.new i None) }
{
    let mut cursors = [Cursor::Settled(None); REQUEST_SECTORS];
    let cursors = &mut cursors[..out.len()];
    start(cursors, from);
    chains.go_on(cursors, 0, from, said);
    settle_all(chains, cursors);
    answer(cursors, out);
}

/// What as many sectors of a medium as there are places read as, from the first one on; `None` where nothing says it, so that it reads as zeros.
/// A run moves on whole as long as nothing is said of it and one range has it.
pub fn resolve(
    mediums: &MediumTable,
    addresses: &AddressTable,
    elided: &Elided,
    medium: MediumId,
    first: u32,
    out: &mut [Option<Target>],
)
    requires tables { (f : Facts) × AreChains f mediums.now.facts addresses.now.facts elided.now }
    requires few { length out.old ≤ REQUEST_SECTORS }
    requires sectors { first + length out.old ≤ OBJECT_SECTORS }
    ensures { (f : Facts) → AreChains f mediums.now.facts addresses.now.facts elided.now
        → (i : ℕ) → i < length out.new → ReadsAt f medium.0 (first + i) (slice_index_or out.new i None) }
{
    let chains = Chains {
        mediums,
        addresses,
        elided,
    };
    let mut said = [None; REQUEST_SECTORS];
    let said = &mut said[..out.len()];
    let from = chains.descend(
        Spot {
            medium,
            sector: first,
        },
        said,
    );
    if !answer_said(said, out) {
        resolve_each(&chains, from, said, out);
    }
}

/// Writes out where the facts of sectors say that these stand.
fn put_targets(run: &[AddressFact], out: &mut [Target])
    requires { length run.now ≡ length out.old }
    ensures { (i : ℕ) (a : AddressFact) → slice_get run.now i ≡ Some a → slice_index_or out.new i Target.Zero ≡ a.target }
{
    for i in 0..out.len() {
        out[i] = run[i].target;
    }
}

/// Writes out what sectors read as: zeros where nothing says it.
fn put_read(read: &[Option<Target>], out: &mut [Target])
    requires { length read.now ≡ length out.old }
    ensures { (i : ℕ) → i < length out.new → slice_index_or out.new i Target.Zero ≡ unwrap_or (slice_index_or read.now i None) Target.Zero }
{
    for i in 0..out.len() {
        out[i] = read[i].unwrap_or(Target::Zero);
    }
}

/// What as many sectors of a medium as there are places read as, from the first one on: zeros where nothing says it.
/// Where one patch has their addresses these are taken as they lie in it.
pub fn translate(
    mediums: &MediumTable,
    addresses: &AddressTable,
    elided: &Elided,
    medium: MediumId,
    first: u32,
    out: &mut [Target],
)
    requires tables { (f : Facts) × AreChains f mediums.now.facts addresses.now.facts elided.now }
    requires few { length out.old ≤ REQUEST_SECTORS }
    requires sectors { first + length out.old ≤ OBJECT_SECTORS }
    ensures { (f : Facts) → AreChains f mediums.now.facts addresses.now.facts elided.now
        → (i : ℕ) → i < length out.new → Reads f medium.0 (first + i) (slice_index_or out.new i Target.Zero) }
{
    match addresses.run(medium, first, out.len(), elided.ranges(Table::Address)) {
        Some(run) => put_targets(run, out),
        None => {
            let mut read = [None; REQUEST_SECTORS];
            let read = &mut read[..out.len()];
            resolve(mediums, addresses, elided, medium, first, read);
            put_read(read, out);
        }
    }
}
