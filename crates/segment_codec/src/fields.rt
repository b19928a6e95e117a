ghost use Rattle.std.specs.Prelude.{◌↔◌, IsTrue};

use crate::writing::{MAGIC, PADDING_BYTES};
use pur_base::{Places, Sector, are_zeros, places_in, u8_in, u16_in, u32_in, u64_in};

/// The fields of a header as they stand in a sector, not judged yet.
#[derive(Drop)]
pub struct Fields<'a> {
    pub magic: &'a [u8],
    pub segment: u64,
    pub generation: u64,
    pub code: u8,
    pub shard: u8,
    pub placed: u16,
    pub tag: u8,
    pub padding: &'a [u8],
    pub part: u16,
    pub parts: u16,
    pub facts: u32,
    pub places: Places,
    pub rest: &'a [u8],
}

impl<'a> Fields<'a> {
    ghost use Rattle.segment_codec.specs.Fields.{AreFields, IsFrame};

    /// The fields of a sector.
    pub fn of(sector: &'a Sector) -> Fields<'a>
        ensures { AreFields sector.now result }
    {
        let (magic, rest) = sector.as_bytes().split_at(MAGIC.len());
        let (segment, rest) = u64_in(rest);
        let (generation, rest) = u64_in(rest);
        let (code, rest) = u8_in(rest);
        let (shard, rest) = u8_in(rest);
        let (placed, rest) = u16_in(rest);
        let (tag, rest) = u8_in(rest);
        let (padding, rest) = rest.split_at(PADDING_BYTES);
        let (part, rest) = u16_in(rest);
        let (parts, rest) = u16_in(rest);
        let (facts, rest) = u32_in(rest);
        let (places, rest) = places_in(rest);
        Fields {
            magic,
            segment,
            generation,
            code,
            shard,
            placed,
            tag,
            padding,
            part,
            parts,
            facts,
            places,
            rest,
        }
    }

    /// Whether the bytes that are no field are as in every header.
    pub fn is_frame(&self) -> bool
        ensures { IsTrue result ↔ IsFrame self.now }
    {
        self.magic == MAGIC.as_slice() && are_zeros(self.padding) && are_zeros(self.rest)
    }
}
