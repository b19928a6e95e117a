// Text in memory.
use pur_base::NoMemory;
use std::alloc::Global;

/// A text that grows. That memory ran out is told at its end.
#[derive(Drop)]
pub struct Text {
    alloc: Global,
    bytes: Vec<u8>,
    has_failed: bool,
}

impl Text {
    /// Nothing so far.
    pub fn new(alloc: Global) -> Text {
        Text {
            alloc,
            bytes: Vec::new(alloc),
            has_failed: false,
        }
    }

    /// Adds bytes.
    pub fn put_bytes(&mut self, more: &[u8]) {
        if self.bytes.extend_from_slice(more).is_err() {
            self.has_failed = true;
        }
    }

    /// Adds words.
    pub fn put(&mut self, words: &str) {
        self.put_bytes(words.as_bytes());
    }

    /// Adds a number behind its words.
    pub fn put_number(&mut self, words: &str, number: u64) {
        match format!(in self.alloc; "{words}{number}") {
            Ok(both) => self.put(both.as_str()),
            Err(_) => self.has_failed = true,
        }
    }

    /// All of it.
    pub fn end(self) -> Result<Vec<u8>, NoMemory> {
        let Text {
            alloc: _,
            bytes,
            has_failed,
        } = self;
        if has_failed { Err(NoMemory) } else { Ok(bytes) }
    }
}
