// A text that grows.
use pur_base::{Name, NoMemory};
use std::alloc::Global;

/// A text that grows. That memory ran out is told at its end.
#[derive(Drop)]
pub struct Page {
    text: String,
    has_failed: bool,
}

impl Page {
    pub fn new(alloc: Global) -> Page {
        Page {
            text: String::new(alloc),
            has_failed: false,
        }
    }

    /// Adds a part of a line.
    pub fn put(&mut self, part: &str) {
        if self.text.push_str(part).is_err() {
            self.has_failed = true;
        }
    }

    /// Adds a part between its words.
    pub fn put_between(&mut self, words: &str, part: &str, behind: &str) {
        self.put(words);
        self.put(part);
        self.put(behind);
    }

    /// Adds a number behind its words.
    pub fn put_number(&mut self, words: &str, number: u64) {
        if write!(self.text, "{words}{number}").is_err() {
            self.has_failed = true;
        }
    }

    /// Adds words in which each `#` stands for the next of the numbers.
    pub fn put_numbers(&mut self, words: &str, numbers: &[u64]) {
        let mut rest = words;
        for number in numbers {
            let (front, behind) = rest.split_once('#').unwrap_or((rest, ""));
            self.put_number(front, *number);
            rest = behind;
        }
        self.put(rest);
    }

    /// Adds how many things of a name there are, behind these words.
    pub fn put_count(&mut self, words: &str, count: usize, name: &str) {
        self.put_number(words, count as u64);
        self.put(name);
        if count != 1 {
            self.put("s");
        }
    }

    /// Adds the number of a drive, of two digits.
    pub fn put_drive(&mut self, slot: usize) {
        self.put_number(if slot < 10 { "drive 0" } else { "drive " }, slot as u64);
    }

    /// All of it.
    pub fn end(self) -> Result<String, NoMemory> {
        let Page { text, has_failed } = self;
        if has_failed { Err(NoMemory) } else { Ok(text) }
    }
}

/// The text of a name.
pub fn name_text(name: &Name) -> &str {
    std::str::from_utf8(name.as_bytes()).unwrap_or("?")
}
