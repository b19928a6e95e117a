ghost use Rattle.std.specs.Prelude.{◌≡◌, ℕ, ◌+◌, ◌<◌, ◌≤◌, ◌^◌, ◌++◌, List, length, replicate, Contains};
ghost use Rattle.std.specs.Vec.{vec_len, vec_capacity};
ghost use Rattle.pur_base.specs.Sectors.{filled};
ghost use Rattle.memory_spec.specs.Adding.{address_facts};
ghost use Rattle.command_spec.specs.Runs.{target_of, targets_from, AreIndices};

use pur_base::{
    AddressFact, Location, MediumId, REQUEST_SECTORS, SECTOR_BYTES, Sector, SegmentId, Seq, Target,
};

/// The segment of staged sectors: ids of segments begin at 1.
const STAGED: SegmentId = SegmentId(0);

/// The target of the sector at a place of a run: staged from an index on, or zeros.
fn target_of(staged: Option<u16>, i: u16) -> Target
    requires { AreIndices staged (i + 1) }
    ensures { result ≡ target_of staged i }
{
    match staged {
        Some(index) => Target::Stored(Location {
            segment: STAGED,
            index: index + i,
        }),
        None => Target::Zero,
    }
}

/// Writes the addresses of as many sectors of a medium as there are places, from the first sector and that number on.
pub fn write_run(
    medium: MediumId,
    first: u32,
    number: u64,
    staged: Option<u16>,
    run: &mut [AddressFact],
)
    requires few { length run.old ≤ REQUEST_SECTORS }
    requires sectors { first + length run.old ≤ 2 ^ 32 }
    requires numbers { number + length run.old ≤ 2 ^ 64 }
    requires staged { AreIndices staged (length run.old) }
    ensures { run.new ≡ address_facts medium.0 first number (targets_from staged 0 (length run.old)) }
{
    for i in 0..run.len() {
        run[i] = AddressFact {
            medium,
            sector: first + i as u32,
            target: target_of(staged, i as u16),
            seq: Seq(number + i as u64),
        };
    }
}

/// That each sector has 512 bytes: they are looked at for it alone.
fn are_whole(sectors: &[Sector])
    ensures { (sector : List ℕ) → Contains sectors.now sector → length sector ≡ SECTOR_BYTES }
{
    for sector in sectors {
        let _bytes = sector.as_bytes();
    }
}

/// Stages sectors behind those that are staged. It takes no memory.
pub fn stage_all(staged: &mut Vec<Sector>, sectors: &[Sector])
    requires { vec_len staged.old + length sectors.now ≤ vec_capacity staged.old }
    ensures staged { staged.new.items ≡ staged.old.items ++ sectors.now }
    ensures capacity { vec_capacity staged.old ≤ vec_capacity staged.new }
    ensures sectors { (sector : List ℕ) → Contains sectors.now sector → length sector ≡ SECTOR_BYTES }
{
    are_whole(sectors);
    if staged.extend_from_slice(sectors).is_err() {
        unreachable!()
    }
}

/// Stages so many sectors of one byte behind those that are staged. It takes no memory.
pub fn stage_filled(staged: &mut Vec<Sector>, byte: u8, count: u8)
    requires { vec_len staged.old + count ≤ vec_capacity staged.old }
    ensures staged { staged.new.items ≡ staged.old.items ++ replicate count (filled byte) }
    ensures capacity { vec_capacity staged.old ≤ vec_capacity staged.new }
{
    let len = staged.len() + usize::from(count);
    if staged.resize(len, Sector::filled(byte)).is_err() {
        unreachable!()
    }
}
