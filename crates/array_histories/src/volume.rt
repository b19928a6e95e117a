// A volume or a snapshot.
use crate::request::{Ask, COUNT, Pattern, Range, SECTORS, push_ask};

/// A volume or a snapshot of so many sectors, with what each of them holds. It is named by a number.
#[derive(Clone, Copy)]
pub struct Volume {
    pub number: u8,
    pub count: u8,
    /// Whether it takes no writes.
    pub is_snapshot: bool,
    pub patterns: [Pattern; SECTORS as usize],
}

impl Volume {
    /// A new volume.
    pub fn new(number: u8, count: u8) -> Volume {
        Volume {
            number,
            count,
            is_snapshot: false,
            patterns: [Pattern::filled(0); SECTORS as usize],
        }
    }

    /// All of its sectors.
    pub fn sectors(&self) -> &[Pattern] {
        self.patterns.get(..self.count as usize).unwrap_or(&[])
    }

    /// All of it as a range.
    pub fn whole(&self) -> Range {
        Range {
            volume: self.number,
            lba: 0,
            count: self.count,
        }
    }

    /// A request for the sectors from there on, as many as one may be for.
    fn question(&self, lba: u8) -> Ask {
        Ask::Read {
            range: Range {
                volume: self.number,
                lba,
                count: self.count.saturating_sub(lba).min(COUNT),
            },
        }
    }

    /// Requests for all of its sectors. False where memory is wanting.
    pub fn push_questions(&self, asks: &mut Vec<Ask>) -> bool {
        push_ask(asks, self.question(0))
            && (self.count <= COUNT || push_ask(asks, self.question(COUNT)))
    }
}
