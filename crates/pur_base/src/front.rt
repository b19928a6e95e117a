ghost use Rattle.std.specs.Prelude.{◌≡◌, ◌<◌, ◌≤◌, ◌+◌, ◌^◌, ◌++◌, [], length, All};
ghost use Rattle.pur_base.specs.Places.{place_bytes, places_bytes, FitsBytes};
ghost use Rattle.pur_base.specs.Bytes.{u8, u16, u32, u64, padded};

use crate::place::{Place, Places};
use std::marker::Model;

/// The front of N bytes that are being written, field by field, with zeros behind it. Contracts see the list of the bytes so far.
#[derive(Drop)]
pub struct Front<const N: usize> {
    bytes: [u8; N],
    len: usize,
}

impl<const N: usize> Model for Front<N> {
    ghost use Rattle.std.specs.Prelude.{List, ℕ, take};
    ghost use Rattle.pur_base.specs.FrontFields.{IsPadded};

    ghost Value = { List ℕ };

    ghost view = { λ f. take f.len f.bytes };

    ghost invariant = { λ f. IsPadded N f.bytes f.len };
}

impl<const N: usize> Front<N> {
    /// Nothing yet.
    pub fn new() -> Front<N>
        ensures empty { result ≡ [] }
        ensures len { length result ≡ 0 }
    {
        Front {
            bytes: [0; N],
            len: 0,
        }
    }

    /// Writes a field behind the others.
    pub fn put(&mut self, field: &[u8])
        requires { length self.old + length field.now ≤ N }
        ensures bytes { self.new ≡ self.old ++ field.now }
        ensures len { length self.new ≡ length self.old + length field.now }
    {
        let end = self.len + field.len();
        let all = &mut self.bytes[..];
        all[self.len..end].copy_from_slice(field);
        self.len = end;
    }

    /// Writes a byte behind the others.
    pub fn put_u8(&mut self, number: u8)
        requires { length self.old + 1 ≤ N }
        ensures bytes { self.new ≡ self.old ++ u8 number }
        ensures fits { number < 2 ^ 8 }
        ensures len { length self.new ≡ length self.old + 1 }
    {
        self.put(&[number]);
    }

    /// Writes a number of two bytes behind the others, the greatest place first.
    pub fn put_u16(&mut self, number: u16)
        requires { length self.old + 2 ≤ N }
        ensures bytes { self.new ≡ self.old ++ u16 number }
        ensures fits { number < 2 ^ 16 }
        ensures len { length self.new ≡ length self.old + 2 }
    {
        self.put(&number.to_be_bytes());
    }

    /// Writes a number of four bytes behind the others, the greatest place first.
    pub fn put_u32(&mut self, number: u32)
        requires { length self.old + 4 ≤ N }
        ensures bytes { self.new ≡ self.old ++ u32 number }
        ensures fits { number < 2 ^ 32 }
        ensures len { length self.new ≡ length self.old + 4 }
    {
        self.put(&number.to_be_bytes());
    }

    /// Writes a number of eight bytes behind the others, the greatest place first.
    pub fn put_u64(&mut self, number: u64)
        requires { length self.old + 8 ≤ N }
        ensures bytes { self.new ≡ self.old ++ u64 number }
        ensures fits { number < 2 ^ 64 }
        ensures len { length self.new ≡ length self.old + 8 }
    {
        self.put(&number.to_be_bytes());
    }

    /// Writes a place behind the others: its slot in one byte, and its unit in two.
    pub fn put_place(&mut self, place: &Place)
        requires { length self.old + 3 ≤ N }
        ensures bytes { self.new ≡ self.old ++ place_bytes place.now }
        ensures fits { FitsBytes place.now }
        ensures len { length self.new ≡ length self.old + 3 }
    {
        self.put_u8(place.slot);
        self.put_u16(place.unit);
    }

    /// Writes the nine places of a segment behind the others.
    pub fn put_places(&mut self, places: &Places)
        requires { length self.old + 27 ≤ N }
        ensures bytes { self.new ≡ self.old ++ places_bytes places.now }
        ensures fits { All FitsBytes places.now }
        ensures len { length self.new ≡ length self.old + 27 }
    {
        for place in places {
            self.put_place(place);
        }
    }

    /// All the bytes: those written so far, and zeros behind them.
    pub fn into_bytes(self) -> [u8; N]
        ensures { result ≡ padded N self.entry }
    {
        self.bytes
    }
}
