ghost use Rattle.std.specs.Prelude.{◌↔◌, IsTrue};
ghost use Rattle.log_codec.specs.Fields.{IsText};

use crate::parts::Parts;
use crate::writing::MAGIC;
use pur_base::{NAME_BYTES, Sector, are_zeros, u8_in, u32_in, u64_in};

/// The fields of a head as they stand in a sector, not judged yet.
#[derive(Drop)]
pub struct Fields<'a> {
    pub magic: &'a [u8],
    pub number: u64,
    pub kind: u8,
    pub first_len: u8,
    pub second_len: u8,
    pub byte: u8,
    pub count: u32,
    pub lba: u64,
    pub second_lba: u64,
    pub first: &'a [u8],
    pub second: &'a [u8],
    pub rest: &'a [u8],
}

// Whether the field has so many bytes, and zeros behind them.
fn is_text(len: u8, field: &[u8]) -> bool
    ensures { IsTrue result ↔ IsText len field.now }
{
    let len = len as usize;
    len <= field.len() && are_zeros(&field[len..])
}

impl<'a> Fields<'a> {
    ghost use Rattle.log_codec.specs.Fields.{AreFields, IsFrame, AreIn};

    /// The fields of a sector.
    pub fn of(sector: &'a Sector) -> Fields<'a>
        ensures { AreFields sector.now result }
    {
        let (magic, rest) = sector.as_bytes().split_at(MAGIC.len());
        let (number, rest) = u64_in(rest);
        let (kind, rest) = u8_in(rest);
        let (first_len, rest) = u8_in(rest);
        let (second_len, rest) = u8_in(rest);
        let (byte, rest) = u8_in(rest);
        let (count, rest) = u32_in(rest);
        let (lba, rest) = u64_in(rest);
        let (second_lba, rest) = u64_in(rest);
        let (first, rest) = rest.split_at(NAME_BYTES);
        let (second, rest) = rest.split_at(NAME_BYTES);
        Fields {
            magic,
            number,
            kind,
            first_len,
            second_len,
            byte,
            count,
            lba,
            second_lba,
            first,
            second,
            rest,
        }
    }

    /// Whether the first word is a head's, and zeros stand behind the names and behind the fields.
    pub fn is_frame(&self) -> bool
        ensures { IsTrue result ↔ IsFrame self.now }
    {
        self.magic == MAGIC.as_slice()
            && is_text(self.first_len, self.first)
            && is_text(self.second_len, self.second)
            && are_zeros(self.rest)
    }

    /// The parts of the command that the fields stand for.
    pub fn parts(&self) -> Parts<'a>
        requires { IsFrame self.now }
        ensures { AreIn self.now result }
    {
        Parts {
            kind: self.kind,
            first: &self.first[..self.first_len as usize],
            second: &self.second[..self.second_len as usize],
            byte: self.byte,
            count: self.count,
            lba: self.lba,
            second_lba: self.second_lba,
        }
    }
}
