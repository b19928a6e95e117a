ghost use Rattle.std.specs.Prelude.{◌≡◌, ℕ, ◌+◌, ◌-◌, ◌<◌, ◌≤◌, ◌^◌, IsTrue, IfSome, None, length, slice_index_or, option_map};
ghost use Rattle.pur_base.specs.Facts.{Facts};
ghost use Rattle.pur_base.specs.declared.facts.MediumFact.{MediumFact};
ghost use Rattle.pur_base.specs.Mediums.{IsOver};
ghost use Rattle.pur_base.specs.Visible.{address, range};
ghost use Rattle.chain_reads.specs.Cursors.{behind, cursor_at, onward_by, weight, AllFollow, AreOf, Follows, IsInRun, IsRangeAt, IsSaidOf, NoneRises, ReadsOn, RunReadsOn};

use crate::cursor::{Cursor, Spot};
use address_table::AddressTable;
use elision::Elided;
use medium_table::{MediumTable, Range};
use pur_base::{AddressFact, REQUEST_SECTORS, Table};

/// The tables that say what the sectors of mediums read as.
#[derive(Drop)]
pub struct Chains<'a> {
    pub mediums: &'a MediumTable,
    pub addresses: &'a AddressTable,
    pub elided: &'a Elided,
}

/// What the ranges of a medium say of its sectors, up to an end.
#[derive(Clone, Copy)]
struct Part {
    /// The range that has them, or `None` where none has one of them.
    range: Option<Range>,
    end: u64,
}

/// Where a run ends: behind the last place up to which each cursor stands in its run.
fn run_end(cursors: &[Cursor], i: usize, from: Spot) -> usize
    requires few { length cursors.now ≤ REQUEST_SECTORS }
    requires within { i < length cursors.now }
    requires there { cursor_at cursors.now i ≡ Cursor.At from }
    ensures some { i < result }
    ensures within { result ≤ length cursors.now }
    ensures fits { from.sector + result ≤ 2 ^ 32 + i }
    ensures run { (k : ℕ) → i + k < result → IsInRun from.medium.0 (from.sector + k) (cursor_at cursors.now (i + k)) }
{
    let mut end = i + 1;
    while end < cursors.len()
        && cursors[end].is_in_run(from.medium, u64::from(from.sector) + (end - i) as u64)
    {
        end += 1;
    }
    end
}

/// Whether a medium says nothing of a run.
fn is_silent(said: &[Option<AddressFact>]) -> bool
    ensures { IsTrue result → (k : ℕ) → k < length said.now → slice_index_or said.now k None ≡ None }
{
    for fact in said {
        if fact.is_some() {
            return false;
        }
    }
    true
}

/// Where a sector reads on that a range has.
fn onward_by(range: &Range, spot: Spot) -> Spot
    requires start { range.now.start ≤ spot.sector }
    requires fits { range.now.target_start + (spot.sector - range.now.start) < 2 ^ 32 }
    ensures { result ≡ onward_by range.now spot }
{
    let sector = range.target_start + (u64::from(spot.sector) - range.start);
    Spot {
        medium: range.target,
        sector: sector as u32,
    }
}

impl Chains<'_> {
    /// The next start of a range behind a sector that none has, or a number past all sectors.
    fn next_start(&self, spot: Spot) -> u64
        requires { (f : Facts) × (AreOf f self.now × ((r : MediumFact) → ¬ (IsOver f spot.medium.0 spot.sector r))) }
        ensures behind { spot.sector < result }
        ensures none { (f : Facts) → AreOf f self.now
            → (start : ℕ) → spot.sector ≤ start → start < result → range f spot.medium.0 start ≡ None }
    {
        match self.mediums.next(spot.medium, spot.sector, self.elided.ranges(Table::Medium)) {
            Some(range) => range.start,
            None => u64::MAX,
        }
    }

    /// What the ranges say of the sector, and of those behind it up to an end.
    fn part_at(&self, spot: Spot) -> Part
        requires { (f : Facts) × AreOf f self.now }
        ensures some { spot.sector < result.end }
        ensures says { (f : Facts) → AreOf f self.now
            → (x : ℕ) → spot.sector ≤ x → x < result.end → IsRangeAt f spot.medium.0 x result.range }
    {
        match self.mediums.step(spot.medium, spot.sector, self.elided.ranges(Table::Medium)) {
            Some(range) => Part {
                range: Some(range),
                end: range.end,
            },
            None => Part {
                range: None,
                end: self.next_start(spot),
            },
        }
    }

    /// The part that has the sector, if the medium itself doesn't say it: the same one as before, unless that ends in front of it.
    fn part_for(&self, spot: Spot, said: Option<AddressFact>, part: Part) -> Part
        requires tables { (f : Facts) × AreOf f self.now }
        requires says { (f : Facts) → AreOf f self.now
            → (x : ℕ) → spot.sector ≤ x → x < part.end → IsRangeAt f spot.medium.0 x part.range }
        ensures some { said ≡ None → spot.sector < result.end }
        ensures says { (f : Facts) → AreOf f self.now
            → (x : ℕ) → spot.sector ≤ x → x < result.end → IsRangeAt f spot.medium.0 x result.range }
    {
        if said.is_none() && part.end <= u64::from(spot.sector) {
            self.part_at(spot)
        } else {
            part
        }
    }

    /// Where a cursor goes from a sector, by what the medium itself says of it, or else by the part that has it.
    fn beyond(&self, spot: Spot, said: Option<AddressFact>, part: &Part) -> Cursor
        requires tables { (f : Facts) × AreOf f self.now }
        requires said { (f : Facts) → AreOf f self.now
            → option_map (λ a. a.target) said ≡ address f spot.medium.0 spot.sector }
        requires part { said ≡ None → (f : Facts) → AreOf f self.now
            → IsRangeAt f spot.medium.0 spot.sector part.now.range }
        ensures follows { (f : Facts) → AreOf f self.now
            → Follows f (Cursor.At spot) result }
        ensures sinks { weight result ≤ spot.medium.0 }
    {
        match (said, part.range) {
            (Some(fact), _) => Cursor::Settled(Some(fact.target)),
            (None, None) => Cursor::Settled(None),
            (None, Some(range)) => Cursor::At(onward_by(&range, spot)),
        }
    }

    /// The cursors of a run, each of which reads on at its own sector of a medium, go on from there: one step for each part of it that they stand in.
    pub fn go_on(&self, cursors: &mut [Cursor], i: usize, at: Spot, said: &[Option<AddressFact>])
        requires tables { (f : Facts) × AreOf f self.now }
        requires within { i + length said.now ≤ length cursors.old }
        requires fits { at.sector + length said.now ≤ 2 ^ 32 }
        requires reads { (f : Facts) → AreOf f self.now
            → (k : ℕ) → k < length said.now → ReadsOn f (behind at k) (cursor_at cursors.old (i + k)) }
        requires said { (f : Facts) → AreOf f self.now → IsSaidOf f at said.now }
        ensures follows { (f : Facts) → AreOf f self.now → AllFollow f cursors.old cursors.new }
        ensures sinks { NoneRises cursors.old cursors.new }
        ensures first { 0 < length said.now → weight (cursor_at cursors.new i) ≤ at.medium.0 }
    {
        let mut part = Part {
            range: None,
            end: 0,
        };
        for k in 0..said.len() {
            if let Cursor::At(_) = cursors[i + k] {
                let spot = at.behind(k as u32);
                part = self.part_for(spot, said[k], part);
                cursors[i + k] = self.beyond(spot, said[k], &part);
            }
        }
    }

    /// What the medium itself says of a run of its sectors: one search of addresses.
    fn say(&self, from: Spot, said: &mut [Option<AddressFact>])
        requires { from.sector + length said.old ≤ 2 ^ 32 }
        ensures { (f : Facts) → AreOf f self.now → IsSaidOf f from said.new }
    {
        self.addresses.span(
            from.medium,
            from.sector,
            self.elided.ranges(Table::Address),
            said,
        );
    }

    /// Where a whole run reads on, if its medium says nothing of it and one range has it.
    fn onward(&self, from: Spot, said: &[Option<AddressFact>]) -> Option<Spot>
        requires tables { (f : Facts) × AreOf f self.now }
        requires said { (f : Facts) → AreOf f self.now → IsSaidOf f from said.now }
        ensures fits { IfSome result (λ next. next.sector + length said.now ≤ 2 ^ 32) }
        ensures sinks { IfSome result (λ next. next.medium.0 < from.medium.0) }
        ensures reads { (f : Facts) → AreOf f self.now → IfSome result (λ next. RunReadsOn f from next (length said.now)) }
    {
        if !is_silent(said) {
            return None;
        }
        let part = self.part_at(from);
        match part.range {
            Some(range) if u64::from(from.sector) + said.len() as u64 <= part.end => {
                Some(onward_by(&range, from))
            },
            _ => None,
        }
    }

    /// The first medium of a chain that says something of a run, or has no single range for it, and what it says; the run reads on there.
    pub fn descend(&self, from: Spot, said: &mut [Option<AddressFact>]) -> Spot
        requires tables { (f : Facts) × AreOf f self.now }
        requires fits { from.sector + length said.old ≤ 2 ^ 32 }
        ensures fits { result.sector + length said.new ≤ 2 ^ 32 }
        ensures sinks { result.medium.0 ≤ from.medium.0 }
        ensures said { (f : Facts) → AreOf f self.now → IsSaidOf f result said.new }
        ensures reads { (f : Facts) → AreOf f self.now → RunReadsOn f from result (length said.new) }
    {
        let mut at = from;
        self.say(at, said);
        while let Some(next) = self.onward(at, said) {
            at = next;
            self.say(at, said);
        }
        at
    }

    /// The cursors of a run go down as one as far as nothing is said of it, and then on from there.
    fn go_down(
        &self,
        cursors: &mut [Cursor],
        i: usize,
        from: Spot,
        said: &mut [Option<AddressFact>],
    )
        requires tables { (f : Facts) × AreOf f self.now }
        requires within { i + length said.old ≤ length cursors.old }
        requires fits { from.sector + length said.old ≤ 2 ^ 32 }
        requires run { (k : ℕ) → k < length said.old → IsInRun from.medium.0 (from.sector + k) (cursor_at cursors.old (i + k)) }
        ensures follows { (f : Facts) → AreOf f self.now → AllFollow f cursors.old cursors.new }
        ensures sinks { NoneRises cursors.old cursors.new }
        ensures first { 0 < length said.old → weight (cursor_at cursors.new i) ≤ from.medium.0 }
    {
        let at = self.descend(from, said);
        self.go_on(cursors, i, at, said);
    }

    /// A cursor and the run behind it go on from their medium.
    fn turn(&self, cursors: &mut [Cursor], i: usize, from: Spot)
        requires tables { (f : Facts) × AreOf f self.now }
        requires few { length cursors.old ≤ REQUEST_SECTORS }
        requires within { i < length cursors.old }
        requires there { cursor_at cursors.old i ≡ Cursor.At from }
        ensures follows { (f : Facts) → AreOf f self.now → AllFollow f cursors.old cursors.new }
        ensures sinks { NoneRises cursors.old cursors.new }
        ensures first { weight (cursor_at cursors.new i) ≤ from.medium.0 }
    {
        let end = run_end(cursors, i, from);
        let mut said = [None; REQUEST_SECTORS];
        self.go_down(cursors, i, from, &mut said[..end - i]);
    }

    /// Goes on until the cursor is settled, and takes those with it that stand in its run.
    pub fn settle(&self, cursors: &mut [Cursor], i: usize)
        requires tables { (f : Facts) × AreOf f self.now }
        requires few { length cursors.old ≤ REQUEST_SECTORS }
        requires within { i < length cursors.old }
        ensures follows { (f : Facts) → AreOf f self.now → AllFollow f cursors.old cursors.new }
        ensures sinks { NoneRises cursors.old cursors.new }
        ensures settled { weight (cursor_at cursors.new i) ≡ 0 }
    {
        while let Cursor::At(from) = cursors[i] {
            self.turn(cursors, i, from);
        }
    }
}
