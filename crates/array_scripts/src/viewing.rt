// Views of the shelf, and what they tell.
use crate::devices::{DEVICES, DRIVES};
use crate::notes::Notes;
use crate::stage::{Stage, Viewing};
use shelf_look::{Asked, There, Told, view};
use std::str::from_utf8;
use world_mem::{Call, What};

/// Whether each of the calls from that place on is a read of a device, whether or not it failed, and there is one.
fn are_reads(calls: &[Call], from: usize) -> bool {
    for place in from..calls.len() {
        match calls[place] {
            Call::On(_, What::Read | What::FailedRead(_)) => {}
            _ => return false,
        }
    }
    from < calls.len()
}

/// All devices but this one.
fn all_but(absent: Option<u8>) -> There {
    let mut there = There::ALL;
    match absent {
        Some(place) if place < DRIVES => there.drives[place as usize] = false,
        Some(place) if place < DEVICES => there.nvrams[(place - DRIVES) as usize] = false,
        _ => {}
    }
    there
}

/// Whether one of its lines is this.
fn has_line(text: &str, line: &str) -> bool {
    for other in text.lines() {
        if other == line {
            return true;
        }
    }
    false
}

/// Whether a text has each of these lines; as JSON, has them somewhere.
fn has_lines(notes: &mut Notes, text: &str, lines: &str, is_json: bool) -> bool {
    for line in lines.lines() {
        let has = if is_json {
            text.contains(line)
        } else {
            has_line(text, line)
        };
        if !has {
            notes.put("it doesn't tell: ");
            notes.put(line);
            return false;
        }
    }
    true
}

impl Stage {
    /// Looks at the shelf.
    pub fn look(&mut self, viewing: Viewing) -> bool {
        self.mark();
        let asked = Asked {
            json: viewing.is_json,
            objects: true,
        };
        match view(self.alloc, &mut self.world, &all_but(viewing.absent), asked) {
            Ok(told) => self.is_told(&told, viewing),
            Err(_) => self.tell("no memory"),
        }
    }

    /// Whether it was told so, by reads alone.
    fn is_told(&mut self, told: &Told, viewing: Viewing) -> bool {
        if !are_reads(self.world.calls(), self.calls_before) {
            return self.tell("it made another call than a read");
        }
        self.is_end(told.status, viewing.status) && self.tells(told.text.as_str(), viewing.is_json)
    }

    /// Whether a text has what is wanted.
    fn tells(&mut self, text: &str, is_json: bool) -> bool {
        let lines = from_utf8(&self.wanted).unwrap_or("");
        has_lines(&mut self.notes, text, lines, is_json)
    }
}
