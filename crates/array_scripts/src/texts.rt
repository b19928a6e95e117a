// What a session is given, or what is wanted of it, as a script has it.
use crate::numbers::{Reading, byte, front_of, number};
use pur_base::SECTOR_BYTES;
use std::alloc::Global;

/// What comes before a byte of a text.
#[derive(Clone, Copy)]
struct Before {
    n: u64,
    /// The number that began with a `$`.
    reading: Option<Reading>,
    is_escaped: bool,
}

/// The byte that stands behind a backslash.
fn escaped(letter: u8) -> u8 {
    match letter {
        b'n' => b'\n',
        b'r' => b'\r',
        b't' => b'\t',
        b's' => b' ',
        b'0' => 0,
        _ => letter,
    }
}

fn push(into: &mut Vec<u8>, bytes: &[u8]) -> bool {
    into.extend_from_slice(bytes).is_ok()
}

fn push_number(alloc: Global, into: &mut Vec<u8>, value: u64) -> bool {
    match format!(in alloc; "{value}") {
        Ok(digits) => push(into, digits.as_bytes()),
        Err(_) => false,
    }
}

/// Ends the number that was begun, if one was.
fn end_number(alloc: Global, into: &mut Vec<u8>, before: &mut Before) -> bool {
    let Some(reading) = before.reading.take() else {
        return true;
    };
    match reading.result() {
        Some(value) => push_number(alloc, into, value),
        None => false,
    }
}

fn push_plain(into: &mut Vec<u8>, before: &mut Before, byte: u8) -> bool {
    if before.is_escaped {
        before.is_escaped = false;
        return push(into, &[escaped(byte)]);
    }
    match byte {
        b'$' => before.reading = Some(Reading::new(before.n)),
        b'\\' => before.is_escaped = true,
        _ => return push(into, &[byte]),
    }
    true
}

/// Whether the byte goes on a number.
fn goes_on(before: &mut Before, byte: u8) -> bool {
    match &mut before.reading {
        Some(reading) => reading.take(byte),
        None => false,
    }
}

fn push_byte(alloc: Global, into: &mut Vec<u8>, before: &mut Before, byte: u8) -> bool {
    goes_on(before, byte) || (end_number(alloc, into, before) && push_plain(into, before, byte))
}

/// A text, in which `$` begins a number and a backslash another byte.
fn push_text(alloc: Global, into: &mut Vec<u8>, text: &str, n: u64) -> bool {
    let mut before = Before {
        n,
        reading: None,
        is_escaped: false,
    };
    for byte in text.bytes() {
        if !push_byte(alloc, into, &mut before, byte) {
            return false;
        }
    }
    end_number(alloc, into, &mut before)
}

fn push_sector(into: &mut Vec<u8>, text: &str, n: u64) -> bool {
    match byte(text, n) {
        Some(value) => push(into, &[value; SECTOR_BYTES]),
        None => false,
    }
}

/// A part of an input or of an output.
#[derive(Clone, Copy)]
enum Part {
    Line,
    Text,
    Sector,
}

fn push_part(alloc: Global, into: &mut Vec<u8>, part: Part, text: &str, n: u64) -> bool {
    match part {
        Part::Line => push_text(alloc, into, text, n) && push(into, b"\n"),
        Part::Text => push_text(alloc, into, text, n),
        Part::Sector => push_sector(into, text, n),
    }
}

/// Parts, with each of these numbers.
fn push_each(alloc: Global, into: &mut Vec<u8>, part: Part, text: &str, count: u64) -> bool {
    for n in 0..count {
        if !push_part(alloc, into, part, text, n) {
            return false;
        }
    }
    true
}

/// As many parts as the number in front says, counted from 0.
fn push_parts(alloc: Global, into: &mut Vec<u8>, part: Part, text: &str, n: u64) -> bool {
    let (count, text) = front_of(text, " ", "");
    match number(count, n) {
        Some(count) => push_each(alloc, into, part, text, count),
        None => false,
    }
}

/// One part, or as many as a number says.
#[derive(Clone, Copy)]
enum Parts {
    One(Part),
    Many(Part),
}

/// What a word in front of a text says of it.
fn parts_of(word: &str) -> Option<Parts> {
    match word {
        "" => Some(Parts::One(Part::Line)),
        "text" => Some(Parts::One(Part::Text)),
        "sector" => Some(Parts::One(Part::Sector)),
        "lines" => Some(Parts::Many(Part::Line)),
        "texts" => Some(Parts::Many(Part::Text)),
        "sectors" => Some(Parts::Many(Part::Sector)),
        _ => None,
    }
}

/// Puts what stands behind a `>` or a `<` into a text. False where it can't be read.
pub fn push_line(alloc: Global, into: &mut Vec<u8>, line: &str, n: u64) -> bool {
    let (word, text) = front_of(line, " ", "");
    match parts_of(word) {
        Some(Parts::One(part)) => push_part(alloc, into, part, text, n),
        Some(Parts::Many(part)) => push_parts(alloc, into, part, text, n),
        None => false,
    }
}

/// Bytes: one, or as `7*512` one so many times.
fn push_run(into: &mut Vec<u8>, word: &str, n: u64) -> bool {
    let (value, count) = front_of(word, "*", "1");
    match (byte(value, n), number(count, n)) {
        (Some(value), Some(count)) => push_same(into, value, count),
        _ => false,
    }
}

/// Puts a byte so many times into a list.
pub fn push_same(into: &mut Vec<u8>, value: u8, count: u64) -> bool {
    for _ in 0..count {
        if into.push(value).is_err() {
            return false;
        }
    }
    true
}

/// Puts bytes, by their numbers, into a list.
pub fn push_bytes(into: &mut Vec<u8>, words: &str, n: u64) -> bool {
    for word in words.split_whitespace() {
        if !push_run(into, word, n) {
            return false;
        }
    }
    true
}
