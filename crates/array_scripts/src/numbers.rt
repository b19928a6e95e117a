// Numbers of a script: sums of digits and of a loop's `n`, from left to right.

/// A number that is read a byte at a time.
#[derive(Clone, Copy)]
pub struct Reading {
    n: u64,
    total: u64,
    operator: u8,
    term: Option<u64>,
}

impl Reading {
    /// Nothing yet, where `n` is this.
    pub fn new(n: u64) -> Reading {
        Reading {
            n,
            total: 0,
            operator: b'+',
            term: None,
        }
    }

    /// Takes the next byte. False where it is none of a number's.
    pub fn take(&mut self, byte: u8) -> bool {
        match byte {
            b'n' => self.term = Some(self.n),
            b'0'..=b'9' => self.take_digit(byte & 15),
            b'+' | b'-' | b'*' | b'/' | b'%' => return self.apply(byte),
            _ => return false,
        }
        true
    }

    fn take_digit(&mut self, digit: u8) {
        let term = self.term.unwrap_or(0).wrapping_mul(10);
        self.term = Some(term.wrapping_add(u64::from(digit)));
    }

    /// Ends the term, behind which this operator stands. False where there is none.
    fn apply(&mut self, next: u8) -> bool {
        let Some(term) = self.term.take() else {
            return false;
        };
        let total = match self.operator {
            b'+' => self.total.checked_add(term),
            b'-' => self.total.checked_sub(term),
            b'*' => self.total.checked_mul(term),
            b'/' => self.total.checked_div(term),
            _ => self.total.checked_rem(term),
        };
        self.total = total.unwrap_or(0);
        self.operator = next;
        total.is_some()
    }

    /// The number.
    pub fn result(mut self) -> Option<u64> {
        if self.apply(b'+') {
            Some(self.total)
        } else {
            None
        }
    }
}

/// A number, as `n+28`.
pub fn number(text: &str, n: u64) -> Option<u64> {
    let mut reading = Reading::new(n);
    for byte in text.bytes() {
        if !reading.take(byte) {
            return None;
        }
    }
    reading.result()
}

/// A byte.
pub fn byte(text: &str, n: u64) -> Option<u8> {
    match number(text, n) {
        Some(value) if value < 256 => Some(value as u8),
        _ => None,
    }
}

/// The numbers from one to another.
#[derive(Clone, Copy)]
pub struct Numbers {
    pub first: u64,
    pub last: u64,
}

/// What stands in front of a mark and what behind it; where there is no mark, all and this.
pub fn front_of<'a>(text: &'a str, mark: &'static str, rest: &'a str) -> (&'a str, &'a str) {
    match text.split_once(mark) {
        Some(parts) => parts,
        None => (text, rest),
    }
}

/// One number, or as `3..=5` those from one to another.
pub fn numbers_of(text: &str, n: u64) -> Option<Numbers> {
    let (first, last) = front_of(text, "..=", text);
    match (number(first, n), number(last, n)) {
        (Some(first), Some(last)) => Some(Numbers { first, last }),
        _ => None,
    }
}
