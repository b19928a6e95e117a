ghost use Rattle.std.specs.Prelude.{◌≡◌, ◌≤◌, ◌+◌, ◌++◌, length};
ghost use Rattle.pur_base.specs.Bytes.{padded};
ghost use Rattle.pur_base.specs.declared.limits.TheConstants.{NAME_BYTES, SECTOR_BYTES};
ghost use Rattle.log_codec.specs.Head.{IsCommand, Decodes};

use crate::head::Head;
use crate::parts::Parts;
use pur_base::{Front, NAME_BYTES, SECTOR_BYTES, Sector};

/// The first bytes of a head.
pub const MAGIC: [u8; 8] = *b"PURNVLOG";

// Writes the text and zeros up to the length of a name behind what is written.
fn put_text(front: &mut Front<SECTOR_BYTES>, text: &[u8])
    requires text { length text.now ≤ NAME_BYTES }
    requires room { length front.old + NAME_BYTES ≤ SECTOR_BYTES }
    ensures bytes { front.new ≡ front.old ++ padded NAME_BYTES text.now }
    ensures len { length front.new ≡ length front.old + NAME_BYTES }
{
    let zeros = [0; NAME_BYTES];
    let (_, behind) = zeros.split_at(text.len());
    front.put(text);
    front.put(behind);
}

/// The sector that spells the head.
#[tactic(auto, unfolding(crate::specs::Head::head_bytes))]
pub fn write_head(head: &Head) -> Sector
    requires { IsCommand head.now.command }
    ensures { Decodes result head.now }
{
    let parts = Parts::of(&head.command);
    let mut front = Front::<SECTOR_BYTES>::new();
    front.put(&MAGIC);
    front.put_u64(head.number);
    front.put_u8(parts.kind);
    front.put_u8(parts.first.len() as u8);
    front.put_u8(parts.second.len() as u8);
    front.put_u8(parts.byte);
    front.put_u32(parts.count);
    front.put_u64(parts.lba);
    front.put_u64(parts.second_lba);
    put_text(&mut front, parts.first);
    put_text(&mut front, parts.second);
    Sector::new(front.into_bytes())
}
