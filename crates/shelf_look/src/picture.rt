// The units of a drive as a bar.
use crate::Unit;

/// The most letters of a bar.
const LETTERS: usize = 64;

/// A bar of the units of a drive: each letter stands for as many of them.
#[derive(Clone, Copy)]
pub struct Bar {
    letters: [u8; LETTERS],
    length: usize,
}

impl Bar {
    pub fn text(&self) -> &str {
        std::str::from_utf8(self.letters.get(..self.length).unwrap_or(&[])).unwrap_or("?")
    }
}

/// How many of the units are of a kind.
pub fn count_of(units: &[Unit], kind: Unit) -> usize {
    let mut count = 0usize;
    for unit in units {
        if *unit == kind {
            count = count.saturating_add(1);
        }
    }
    count
}

/// The letter of what most of the units are; of as many of two kinds, that of the first of boot region, data, patches and free.
fn letter_of(units: &[Unit]) -> u8 {
    let data = count_of(units, Unit::Data);
    let patches = count_of(units, Unit::Patch);
    let free = count_of(units, Unit::Free);
    let most = data.max(patches).max(free);
    if count_of(units, Unit::Boot) >= most {
        b'B'
    } else if data == most {
        b'd'
    } else if patches == most {
        b'p'
    } else {
        b'.'
    }
}

/// The bar of these units.
pub fn bar_of(units: &[Unit]) -> Bar {
    let each = units.len().div_ceil(LETTERS).max(1);
    let mut letters = [b'.'; LETTERS];
    let mut length = 0usize;
    for at in 0..LETTERS {
        let from = at.saturating_mul(each);
        if from < units.len() {
            let to = units.len().min(from.saturating_add(each));
            letters[at] = letter_of(units.get(from..to).unwrap_or(&[]));
            length = at + 1;
        }
    }
    Bar { letters, length }
}
