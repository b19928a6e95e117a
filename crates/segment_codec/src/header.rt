ghost use Rattle.std.specs.Prelude.{◌↔◌, IsTrue};
ghost use Rattle.segment_codec.specs.Header.{IsLawful, IsTagOf};

use crate::kind::SegmentKind;
use pur_base::{Places, SEGMENT_SECTORS, SEGMENT_SHARDS, SegmentId};

/// The greatest tag of a patch. The tables are numbered from 1.
pub const TAG_MAX: u8 = 5;

/// What stands at the head of each unit of a segment.
#[derive(Clone, Copy, PartialEq, Eq)]
pub struct Header {
    pub segment: SegmentId,
    /// The boot generation in which the header was written.
    pub generation: u64,
    pub kind: SegmentKind,
    /// The unit's shard: 0 to 6 of data, 7 is P and 8 is Q.
    pub shard: u8,
    /// How many sectors of the segment are placed, from 1 to 840.
    pub placed: u16,
    /// The tag of the patch, and 0 for data.
    pub tag: u8,
    /// Which segment of the patch this is, from 0. Written as 0 for data.
    pub part: u16,
    /// How many segments the patch has. Written as 0 for data.
    pub parts: u16,
    /// How many facts the patch has. Written as 0 for data.
    pub facts: u32,
    /// The units of the segment, by shard. Whether they are units of the shelf isn't judged.
    pub places: Places,
}

fn has_tag(header: &Header) -> bool
    ensures { IsTrue result ↔ IsTagOf header.now.kind header.now.tag }
{
    match header.kind {
        SegmentKind::Data => header.tag == 0,
        SegmentKind::Patch => 1 <= header.tag && header.tag <= TAG_MAX,
    }
}

/// Whether the shard, the sectors placed and the tag are in bounds.
pub fn is_lawful(header: &Header) -> bool
    ensures { IsTrue result ↔ IsLawful header.now }
{
    let shard = (header.shard as usize) < SEGMENT_SHARDS;
    let placed = 1 <= header.placed && header.placed <= SEGMENT_SECTORS;
    shard && placed && has_tag(header)
}
