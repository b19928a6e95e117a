// What `shelf.txt` says.
ghost use Rattle.std.specs.Prelude.{◌≤◌};
ghost use Rattle.pur_base.specs.declared.limits.TheConstants.{SLOTS_MIN, SLOTS_MAX, UNITS_MIN, UNITS_MAX};

use pur_base::{SLOTS_MAX, SLOTS_MIN, UNITS_MAX, UNITS_MIN};

/// The most bytes of a text of that form.
const TEXT_BYTES: usize = 8;

/// How many drives a shelf has, and how many units each of them.
#[derive(Clone, Copy)]
pub(crate) struct Shape {
    pub(crate) slots: u8,
    pub(crate) units: u16,
    ghost slots_in: { (SLOTS_MIN ≤ slots) × (slots ≤ SLOTS_MAX) },
    ghost units_in: { (UNITS_MIN ≤ units) × (units ≤ UNITS_MAX) },
}

impl Shape {
    /// The shape that a text tells: `SLOTS UNITS` and a line end, with no needless zero, and within the limits.
    pub(crate) fn read(text: &[u8]) -> Option<Shape> {
        if text.len() > TEXT_BYTES {
            return None;
        }
        let line = text.strip_suffix(b"\n")?;
        let space = line.iter().position(|&byte| byte == b' ')?;
        let slots = number(&line[..space])?;
        let units = number(&line[space + 1..])?;
        if slots < u16::from(SLOTS_MIN) || slots > u16::from(SLOTS_MAX) {
            return None;
        }
        if units < UNITS_MIN || units > UNITS_MAX {
            return None;
        }
        Some(Shape {
            slots: slots as u8,
            units,
        })
    }
}

// A number of one to four digits, with no needless zero in front.
fn number(text: &[u8]) -> Option<u16> {
    let (&first, rest) = text.split_first()?;
    if first == b'0' && !rest.is_empty() {
        return None;
    }
    let mut number = 0u16;
    for &byte in text {
        if !byte.is_ascii_digit() || number > 999 {
            return None;
        }
        number = number * 10 + u16::from(byte - b'0');
    }
    Some(number)
}
