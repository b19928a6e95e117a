ghost use Rattle.std.specs.Prelude.{◌≡◌};
ghost use Rattle.segment_codec.specs.Header.{IsLawful, IsOfNoPatch, Decodes};
ghost use Rattle.segment_codec.specs.declared.kind.SegmentKind.TheVariants.{Data};

use crate::header::Header;
use pur_base::{Front, SECTOR_BYTES, Sector};

/// The first bytes of a header.
pub const MAGIC: [u8; 8] = *b"PURSEGMT";

/// The bytes behind the tag, which are zero.
pub const PADDING_BYTES: usize = 3;

/// The sector that spells the header. For data, the part, the parts and the facts are zero.
#[tactic(auto, unfolding(crate::specs::Header::header_bytes))]
pub fn write_header(header: &Header) -> Sector
    requires lawful { IsLawful header.now }
    requires no_patch { header.now.kind ≡ Data → IsOfNoPatch header.now }
    ensures { Decodes result header.now }
{
    let mut front = Front::<SECTOR_BYTES>::new();
    front.put(&MAGIC);
    front.put_u64(header.segment.0);
    front.put_u64(header.generation);
    front.put_u8(header.kind.code());
    front.put_u8(header.shard);
    front.put_u16(header.placed);
    front.put_u8(header.tag);
    front.put(&[0; PADDING_BYTES]);
    front.put_u16(header.part);
    front.put_u16(header.parts);
    front.put_u32(header.facts);
    front.put_places(&header.places);
    Sector::new(front.into_bytes())
}
