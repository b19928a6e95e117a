// What is told of a script that goes wrong.
use std::alloc::Global;

/// A text that grows, as far as there is memory.
#[derive(Drop)]
pub struct Notes {
    text: String,
}

/// The most bytes of an output that are shown.
const SHOWN: usize = 60;

impl Notes {
    /// Nothing.
    pub fn new(alloc: Global) -> Notes {
        Notes {
            text: String::new(alloc),
        }
    }

    /// What is told.
    pub fn text(&self) -> &str {
        self.text.as_str()
    }

    /// Tells nothing any more.
    pub fn clear(&mut self) {
        self.text.clear();
    }

    /// Adds words.
    pub fn put(&mut self, words: &str) {
        let _ = self.text.push_str(words);
    }

    /// Adds a number behind words.
    pub fn put_number(&mut self, words: &str, number: u64) {
        let _ = write!(self.text, "{words}{number}");
    }

    fn put_byte(&mut self, byte: u8) {
        match byte {
            b' '..=b'~' => {
                let _ = self.text.push(byte as char);
            }
            _ => self.put_number("\\", u64::from(byte)),
        }
    }

    /// Adds some of the bytes behind a place.
    fn put_bytes(&mut self, words: &str, bytes: &[u8], from: usize) {
        self.put(words);
        for place in from..bytes.len().min(from.saturating_add(SHOWN)) {
            self.put_byte(bytes[place]);
        }
    }

    /// Tells that bytes came where others were wanted: some from the line on in which they differ.
    pub fn tell_other(&mut self, came: &[u8], wanted: &[u8]) {
        let other = first_other(came, wanted);
        let from = line_before(wanted, other).max(other.saturating_sub(SHOWN / 2));
        self.put_bytes("came: ", came, from);
        self.put_bytes(", wanted: ", wanted, from);
    }
}

/// Where two texts differ first.
fn first_other(came: &[u8], wanted: &[u8]) -> usize {
    let mut same = 0;
    for place in 0..came.len().min(wanted.len()) {
        if same == place && came[place] == wanted[place] {
            same = place + 1;
        }
    }
    same
}

/// Where the line of that place begins.
fn line_before(text: &[u8], at: usize) -> usize {
    let mut start = 0;
    for place in 0..at.min(text.len()) {
        if text[place] == b'\n' {
            start = place + 1;
        }
    }
    start
}
