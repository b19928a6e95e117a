// The boot units that were read of each drive, and which record they give.
ghost use Rattle.std.specs.Prelude.{ℕ, ◌&&◌, false, slice_index_or, ◌≡◌, ◌↔◌, ◌*◌, ◌<◌, ◌≤◌, length, IsTrue, IfSome, IfNone, IfOk, count_by};
ghost use Rattle.std.specs.Option.{option_copied};
ghost use Rattle.boot_codec.specs.declared.limits.TheConstants.{RECORD_BYTES};
ghost use Rattle.pur_base.specs.Devices.{Geometry};
ghost use Rattle.boot_codec.specs.Region.{IsDecided, IsEffective, is_vote, shown_by, generation_in};
ghost use Rattle.boot_region.specs.declared.regions.TheConstants.{REGION_BYTES};
ghost use Rattle.boot_region.specs.Regions.{region_at, seen, is_holding, vote_of, all_votes, IsUndecided, GivesNone, IsNewerOf};
ghost use Rattle.boot_region.specs.Slots.{slot_in};

use crate::Slot;
use boot_codec::{DRIVE_FLAGS, RECORD_BYTES};
use pur_base::{BOOT_UNITS, NoMemory, UNIT_BYTES, u64_in};
use std::alloc::Global;

/// The bytes of a drive's boot units.
pub const REGION_BYTES: usize = BOOT_UNITS as usize * UNIT_BYTES;

// Where a record's generation stands.
const GENERATION_AT: usize = 16;

/// The boot units of each drive, one behind another, and which drives answered.
#[derive(Drop)]
pub struct Regions {
    pub bytes: Vec<u8>,
    pub answered: Vec<bool>,
    ghost size: { length bytes.items ≡ REGION_BYTES * length answered.items },
    ghost few: { length answered.items ≤ 24 },
}

impl Regions {
    /// A region for each drive, none of which has answered.
    pub fn new(alloc: Global, drives: u8) -> Result<Regions, NoMemory>
        requires { drives ≤ 24 }
        ensures { IfOk result (λ r. length r.answered.items ≡ drives) }
    {
        let drives = drives as usize;
        Ok(Regions {
            bytes: vec![in alloc; 0; drives * REGION_BYTES]?,
            answered: vec![in alloc; false; drives]?,
        })
    }

    /// The bytes that a drive showed, where it answered.
    #[tactic(auto, unfolding(crate::specs::Regions::region_at))]
    fn region(&self, drive: usize) -> Option<&[u8]>
        requires { drive < length self.now.answered.items }
        ensures value { option_copied result ≡ region_at self.now.bytes.items self.now.answered.items drive }
        ensures size { IfSome result (λ r. length r.now ≡ REGION_BYTES) }
    {
        if self.answered[drive] {
            let at = drive * REGION_BYTES;
            Some(&self.bytes[at..at + REGION_BYTES])
        } else {
            None
        }
    }

    /// The body that a drive shows in a slot: the one under an open gate.
    fn shown(&self, drive: usize, slot: Slot) -> Option<&[u8]>
        requires { drive < length self.now.answered.items }
        ensures value { option_copied result ≡ vote_of self.now.bytes.items self.now.answered.items (slot_in slot) drive }
        ensures size { IfSome result (λ body. length body.now ≡ RECORD_BYTES) }
    {
        match self.region(drive) {
            Some(region) => body_shown(region, slot),
            None => None,
        }
    }

    /// Whether a drive shows this body in the slot.
    fn shows(&self, drive: usize, slot: Slot, body: &[u8]) -> bool
        requires { drive < length self.now.answered.items }
        ensures { result ≡ is_vote body.now (vote_of self.now.bytes.items self.now.answered.items (slot_in slot) drive) }
    {
        match self.shown(drive, slot) {
            Some(other) => other == body,
            None => false,
        }
    }

    /// How many drives show this body in the slot.
    fn votes_for(&self, body: &[u8], slot: Slot) -> usize
        ensures count { result ≡ count_by (is_vote body.now) (all_votes self.now.bytes.items self.now.answered.items (slot_in slot)) }
        ensures bound { result ≤ length self.now.answered.items }
    {
        let mut count = 0;
        for drive in 0..self.answered.len() {
            if self.shows(drive, slot, body) {
                count += 1;
            }
        }
        count
    }

    /// Whether more than half of all drives show the body that this one shows.
    fn is_decided_by(&self, body: &[u8], slot: Slot) -> bool
        ensures { IsTrue result ↔ IsDecided (all_votes self.now.bytes.items self.now.answered.items (slot_in slot)) body.now }
    {
        self.answered.len() < 2 * self.votes_for(body, slot)
    }

    /// The body that more than half of all drives show in the slot, if there is one.
    fn decided(&self, slot: Slot) -> Option<&[u8]>
        ensures some { IfSome result (λ body. IsDecided (all_votes self.now.bytes.items self.now.answered.items (slot_in slot)) body.now) }
        ensures none { IfNone result (IsUndecided (all_votes self.now.bytes.items self.now.answered.items (slot_in slot))) }
        ensures size { IfSome result (λ body. length body.now ≡ RECORD_BYTES) }
    {
        for drive in 0..self.answered.len() {
            if let Some(body) = self.shown(drive, slot) {
                if self.is_decided_by(body, slot) {
                    return Some(body);
                }
            }
        }
        None
    }

    /// Whether this body stands in the slot of a drive that answered, behind a gate in whatever state.
    fn holds(&self, drive: usize, slot: Slot, body: &[u8]) -> bool
        requires drive_in { drive < length self.now.answered.items }
        requires size { length body.now ≡ RECORD_BYTES }
        ensures { result ≡ is_holding self.now.bytes.items self.now.answered.items (slot_in slot) body.now drive }
    {
        match self.region(drive) {
            Some(region) => {
                let at = slot.body() as usize;
                &region[at..at + RECORD_BYTES] == body
            }
            None => false,
        }
    }

    /// Of the named drives those on which this body stands in the slot.
    pub fn holding(
        &self,
        named: &[bool; DRIVE_FLAGS],
        slot: Slot,
        body: &[u8],
    ) -> [bool; DRIVE_FLAGS]
        requires { length body.now ≡ RECORD_BYTES }
        ensures { (i : ℕ) → slice_index_or result i false ≡ (slice_index_or named.now i false && is_holding self.now.bytes.items self.now.answered.items (slot_in slot) body.now i) }
    {
        let mut holding = [false; DRIVE_FLAGS];
        for drive in 0..self.answered.len() {
            holding[drive] = named[drive] && self.holds(drive, slot, body);
        }
        holding
    }

    /// The body that the regions give, and its slot: of the bodies that are decided, the one with the higher generation. A tie goes to slot A.
    pub fn effective(&self) -> Option<(Slot, &[u8])>
        ensures some { IfSome result (λ found. (shelf : Geometry) → shelf.slots ≡ length self.now.answered.items
            → IsEffective shelf (seen self.now.bytes.items self.now.answered.items) (slot_in found.0) found.1.now) }
        ensures none { IfNone result ((shelf : Geometry) → shelf.slots ≡ length self.now.answered.items
            → GivesNone shelf (seen self.now.bytes.items self.now.answered.items)) }
        ensures size { IfSome result (λ found. length found.1.now ≡ RECORD_BYTES) }
    {
        match (self.decided(Slot::A), self.decided(Slot::B)) {
            (Some(a), Some(b)) => Some(newer(a, b)),
            (Some(a), None) => Some((Slot::A, a)),
            (None, Some(b)) => Some((Slot::B, b)),
            (None, None) => None,
        }
    }
}

/// The generation that a body names, whether or not the rest of it is lawful.
fn generation_of(body: &[u8]) -> u64
    requires { length body.now ≡ RECORD_BYTES }
    ensures { result ≡ generation_in body.now }
{
    u64_in(&body[GENERATION_AT..]).0
}

/// Of the bodies of slots A and B the one with the higher generation, or that of slot A.
fn newer<'a>(a: &'a [u8], b: &'a [u8]) -> (Slot, &'a [u8])
    requires a { length a.now ≡ RECORD_BYTES }
    requires b { length b.now ≡ RECORD_BYTES }
    ensures { IsNewerOf a.now b.now (slot_in result.0) result.1.now }
{
    if generation_of(a) < generation_of(b) {
        (Slot::B, b)
    } else {
        (Slot::A, a)
    }
}

/// The body that a region shows in a slot.
fn body_shown(region: &[u8], slot: Slot) -> Option<&[u8]>
    requires { length region.now ≡ REGION_BYTES }
    ensures value { option_copied result ≡ shown_by (slot_in slot) region.now }
    ensures size { IfSome result (λ body. length body.now ≡ RECORD_BYTES) }
{
    if region[slot.gate() as usize] != 1 {
        return None;
    }
    let at = slot.body() as usize;
    Some(&region[at..at + RECORD_BYTES])
}
