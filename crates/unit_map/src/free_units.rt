ghost use Rattle.std.specs.Prelude.{◌≡◌, ◌<◌, ◌≤◌, length, count_by, replicate, true, false, slice_set, slice_index_or, IsTrue};
ghost use Rattle.unit_map.specs.Bits.{IsBitChanged};
ghost use Rattle.unit_map.specs.Units.{fresh, IsLowestFree};

use crate::bits::{has_bit, lowest_bit, with_bit, without_bit};
use pur_base::{BOOT_UNITS, UNITS_MAX, UNITS_MIN};
use std::marker::Model;

/// The units of a word.
const WORD_UNITS: u16 = 64;

const WORDS: usize = UNITS_MAX as usize / WORD_UNITS as usize;

/// The units of a drive. Contracts see whether each is free.
#[derive(Drop)]
pub struct FreeUnits {
    units: u16,
    /// How many are free.
    free: u16,
    /// Which words have a free unit.
    filled: u64,
    words: [u64; WORDS],
}

impl Model for FreeUnits {
    ghost use Rattle.std.specs.Prelude.{List, Bool};

    ghost Value = { List Bool };

    ghost use Rattle.unit_map.specs.UnitFields.{units_of, IsTidy};

    ghost view = { λ f. units_of f.words f.units };

    ghost invariant = { λ f. IsTidy f.units f.free f.filled f.words };
}

impl FreeUnits {
    /// So many units, none of them free.
    fn none(units: u16) -> FreeUnits
        requires { units ≤ UNITS_MAX }
        ensures { result ≡ replicate units false }
    {
        FreeUnits {
            units,
            free: 0,
            filled: 0,
            words: [0; WORDS],
        }
    }

    /// So many units, free but for those of the boot region.
    pub fn new(units: u16) -> FreeUnits
        requires low { UNITS_MIN ≤ units }
        requires high { units ≤ UNITS_MAX }
        ensures { result ≡ fresh units }
    {
        let mut all = FreeUnits::none(units);
        for unit in BOOT_UNITS..units {
            all.insert(unit);
        }
        all
    }

    /// How many units are free.
    pub fn count(&self) -> u16
        ensures count { result ≡ count_by (λ free. free) self.now }
        ensures limit { result ≤ UNITS_MAX }
    {
        self.free
    }

    /// Whether a unit is free; one past the last isn't.
    pub fn is_free(&self, unit: u16) -> bool
        ensures free { result ≡ slice_index_or self.now unit false }
        ensures boot { IsTrue result → BOOT_UNITS ≤ unit }
        ensures within { IsTrue result → unit < length self.now }
    {
        if self.units <= unit {
            return false;
        }
        let word = self.words[(unit / WORD_UNITS) as usize];
        has_bit(word, unit % WORD_UNITS)
    }

    /// The lowest unit that is free.
    pub fn lowest(&self) -> u16
        requires { 0 < count_by (λ free. free) self.now }
        ensures lowest { IsLowestFree self.now result }
        ensures boot { BOOT_UNITS ≤ result }
    {
        let word = lowest_bit(self.filled);
        word * WORD_UNITS + lowest_bit(self.words[word as usize])
    }

    /// Makes a unit free that isn't.
    pub fn insert(&mut self, unit: u16)
        requires boot { BOOT_UNITS ≤ unit }
        requires within { unit < length self.old }
        requires absent { slice_index_or self.old unit false ≡ false }
        ensures { self.new ≡ slice_set self.old unit true }
    {
        let word = unit / WORD_UNITS;
        let slot = word as usize;
        self.words[slot] = with_bit(self.words[slot], unit % WORD_UNITS);
        self.filled = with_bit(self.filled, word);
        self.free += 1;
    }

    /// Makes a unit used that is free.
    pub fn remove(&mut self, unit: u16)
        requires within { unit < length self.old }
        requires present { slice_index_or self.old unit false ≡ true }
        ensures { self.new ≡ slice_set self.old unit false }
    {
        let word = unit / WORD_UNITS;
        let left = without_bit(self.words[word as usize], unit % WORD_UNITS);
        self.words[word as usize] = left;
        self.filled = filled_after(self.filled, word, left);
        self.free -= 1;
    }
}

/// Which words have a free unit, once a word is what is left of it.
fn filled_after(filled: u64, word: u16, left: u64) -> u64
    requires { word < 64 }
    ensures emptied { left ≡ 0 → IsBitChanged filled result word 0 }
    ensures kept { 0 < left → result ≡ filled }
{
    if left == 0 {
        without_bit(filled, word)
    } else {
        filled
    }
}
