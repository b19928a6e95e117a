// Loops of a script.
use crate::numbers::{Numbers, numbers_of};
use crate::stage::Stage;

/// A loop: its numbers, whether each turn begins with what the devices hold at its begin, and where that stands.
#[derive(Clone, Copy)]
pub struct Loop {
    numbers: Numbers,
    is_anew: bool,
    begin: usize,
}

/// The loop that a line begins.
pub fn loop_of(lines: &[&str], begin: usize) -> Option<Loop> {
    if begin >= lines.len() {
        return None;
    }
    let line = lines[begin];
    let is_anew = line.starts_with('a');
    let words = if is_anew {
        "anew for n in "
    } else {
        "for n in "
    };
    let numbers = numbers_of(line.strip_prefix(words)?, 0)?;
    Some(Loop {
        numbers,
        is_anew,
        begin,
    })
}

/// Whether a line says nothing.
fn is_comment(line: &str) -> bool {
    line.is_empty() || line.starts_with('#')
}

impl Stage {
    /// Does what a line says, if it says something.
    pub fn read_line(&mut self, lines: &[&str], place: usize) -> bool {
        if place >= lines.len() {
            return true;
        }
        self.line = place + 1;
        let line = lines[place].trim_start();
        is_comment(line) || self.step(line)
    }

    /// Goes through a loop that ends there.
    pub fn run_loop(&mut self, lines: &[&str], begun: Loop, end: usize) -> bool {
        self.world.forget();
        self.is_kept = begun.is_anew;
        for n in begun.numbers.first..begun.numbers.last.saturating_add(1) {
            self.n = n;
            if !self.run_turn(lines, begun, end) {
                self.notes.put_number(", n is ", n);
                return false;
            }
        }
        self.is_kept = false;
        self.n = 0;
        true
    }

    /// A turn of a loop.
    fn run_turn(&mut self, lines: &[&str], begun: Loop, end: usize) -> bool {
        for place in begun.begin.saturating_add(1)..end {
            if !self.read_line(lines, place) {
                return false;
            }
        }
        self.finish() && (!begun.is_anew || self.take_back())
    }
}
