ghost use Rattle.std.specs.Prelude.{◌≡◌, ◌+◌, ◌-◌, ◌≤◌, ◌++◌, length, take};
ghost use Rattle.std.specs.List.{flat_map};
ghost use Rattle.pur_base.specs.Bytes.{zeros};
ghost use Rattle.boot_codec.specs.Record.{IsBootRecord, patch_segments};
ghost use Rattle.boot_codec.specs.Spelling.{spelling, header_bytes, opening_bytes, members_bytes, next_bytes, counts_bytes, place_bytes, segment_bytes, patch_bytes, patches_bytes};
ghost use Rattle.boot_codec.specs.Writing.{IsWritten};

use crate::flags::mask_of;
use crate::limits::{FORMAT, HEADER_BYTES, PATCH_SEGMENTS, PATCHES, RECORD_BYTES};
use crate::patch::{Patch, PatchSegment, Patches};
use crate::put::{put, put_u8, put_u16, put_u32, put_u64};
use crate::record::{BootRecord, Members, NextNumbers};
use pur_base::Place;

/// The bytes that a boot record begins with.
pub const TEXT: &[u8; 8] = b"PURARRAY";

#[tactic(auto, using(crate::proofs::WritingLemmas::then_written), unfolding(crate::specs::Spelling::opening_bytes))]
fn put_opening(into: &mut [u8], at: usize, slots: u8, units: u16) -> usize
    requires { at + 16 ≤ length into.old }
    ensures { IsWritten into.old into.new at result (opening_bytes slots units) }
{
    let at = put(into, at, TEXT);
    let at = put_u32(into, at, FORMAT);
    let at = put_u16(into, at, slots as u16);
    put_u16(into, at, units)
}

#[tactic(auto, using(crate::proofs::WritingLemmas::then_written), unfolding(crate::specs::Spelling::members_bytes))]
fn put_members(into: &mut [u8], at: usize, members: &Members) -> usize
    requires { at + 8 ≤ length into.old }
    ensures { IsWritten into.old into.new at result (members_bytes members.now) }
{
    let at = put_u32(into, at, mask_of(&members.drives));
    let at = put_u8(into, at, mask_of(&members.nvrams) as u8);
    put(into, at, &[0; 3])
}

#[tactic(auto, using(crate::proofs::WritingLemmas::then_written), unfolding(crate::specs::Spelling::next_bytes))]
fn put_next(into: &mut [u8], at: usize, next: &NextNumbers) -> usize
    requires { at + 40 ≤ length into.old }
    ensures { IsWritten into.old into.new at result (next_bytes next.now) }
{
    let at = put_u64(into, at, next.object);
    let at = put_u64(into, at, next.medium);
    let at = put_u64(into, at, next.segment);
    let at = put_u64(into, at, next.patch_segment);
    put_u64(into, at, next.sequence)
}

#[tactic(auto, using(crate::proofs::WritingLemmas::then_written), unfolding(crate::specs::Spelling::counts_bytes))]
fn put_counts(into: &mut [u8], at: usize, patches: u16, len: u32) -> usize
    requires { at + 8 ≤ length into.old }
    ensures { IsWritten into.old into.new at result (counts_bytes patches len) }
{
    let at = put_u16(into, at, patches);
    let at = put_u16(into, at, 0);
    put_u32(into, at, len)
}

/// Writes what stands before the patches of a record that is so long.
fn put_header(into: &mut [u8], boot: &BootRecord, len: u32)
    requires room { length into.old ≡ HEADER_BYTES }
    requires patches { length boot.now.patches ≤ PATCHES }
    ensures { into.new ≡ header_bytes boot.now len }
{
    let at = put_opening(into, 0, boot.slots, boot.units);
    let at = put_u64(into, at, boot.generation);
    let at = put_members(into, at, &boot.members);
    let at = put_next(into, at, &boot.next);
    let at = put_u64(into, at, boot.flushed);
    put_counts(into, at, boot.patches.len() as u16, len);
}

#[tactic(auto, using(crate::proofs::WritingLemmas::then_written), unfolding(crate::specs::Spelling::place_bytes))]
fn put_place(into: &mut [u8], at: usize, place: Place) -> usize
    requires { at + 3 ≤ length into.old }
    ensures { IsWritten into.old into.new at result (place_bytes place) }
{
    let at = put_u8(into, at, place.slot);
    put_u16(into, at, place.unit)
}

fn put_places(into: &mut [u8], at: usize, places: &[Place]) -> usize
    requires { at + length (flat_map place_bytes places.now) ≤ length into.old }
    ensures { IsWritten into.old into.new at result (flat_map place_bytes places.now) }
{
    let mut end = at;
    for place in places {
        end = put_place(into, end, *place);
    }
    end
}

#[tactic(auto, using(crate::proofs::WritingLemmas::then_written), unfolding(crate::specs::Spelling::segment_bytes))]
fn put_segment(into: &mut [u8], at: usize, segment: &PatchSegment) -> usize
    requires { at + length (segment_bytes segment.now) ≤ length into.old }
    ensures { IsWritten into.old into.new at result (segment_bytes segment.now) }
{
    let at = put_u64(into, at, segment.id);
    put_places(into, at, &segment.places)
}

fn put_segments(into: &mut [u8], at: usize, segments: &[PatchSegment]) -> usize
    requires { at + length (flat_map segment_bytes segments.now) ≤ length into.old }
    ensures { IsWritten into.old into.new at result (flat_map segment_bytes segments.now) }
{
    let mut end = at;
    for segment in segments {
        end = put_segment(into, end, segment);
    }
    end
}

#[tactic(auto, using(crate::proofs::WritingLemmas::then_written), unfolding(crate::specs::Spelling::patch_bytes))]
fn put_patch(into: &mut [u8], at: usize, patch: &Patch) -> usize
    requires room { at + length (patch_bytes patch.now) ≤ length into.old }
    requires segments { length patch.now.segments ≤ PATCH_SEGMENTS }
    ensures { IsWritten into.old into.new at result (patch_bytes patch.now) }
{
    let segments = patch.segments.as_slice();
    let at = put_u8(into, at, patch.tag);
    let at = put_u32(into, at, patch.facts);
    let at = put_u16(into, at, segments.len() as u16);
    put_segments(into, at, segments)
}

fn put_patches(into: &mut [u8], at: usize, patches: &Patches) -> usize
    requires room { at + length (patches_bytes patches.now) ≤ length into.old }
    requires segments { patch_segments patches.now ≤ PATCH_SEGMENTS }
    ensures { IsWritten into.old into.new at result (patches_bytes patches.now) }
{
    let mut end = at;
    for i in 0..patches.len() {
        end = put_patch(into, end, &patches.at(i));
    }
    end
}

/// Fills what stands from a place on with zeros.
fn pad(into: &mut [u8], at: usize)
    requires { at ≤ length into.old }
    ensures { into.new ≡ take at into.old ++ zeros (length into.old - at) }
{
    into[at..].fill(0);
}

/// Writes the record's 65,536 bytes. The record is lawful for its own slots and units.
pub fn write_record(boot: &BootRecord, into: &mut [u8])
    requires lawful { IsBootRecord boot.now }
    requires len { length into.old ≡ RECORD_BYTES }
    ensures { into.new ≡ spelling boot.now }
{
    let (header, lists) = into.split_at_mut(HEADER_BYTES);
    let end = put_patches(lists, 0, &boot.patches);
    pad(lists, end);
    put_header(header, boot, (HEADER_BYTES + end) as u32);
}
