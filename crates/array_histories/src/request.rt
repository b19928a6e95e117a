// What is asked.
use crate::random::Random;
use crate::text::Text;
use crate::volume::Volume;
use pur_base::{SECTOR_BYTES, Table};

/// What a sector holds: its first byte, and what is added from each byte to the next.
#[derive(Clone, Copy)]
pub struct Pattern {
    pub first: u8,
    pub step: u8,
}

impl Pattern {
    /// A sector of one byte.
    pub fn filled(byte: u8) -> Pattern {
        Pattern {
            first: byte,
            step: 0,
        }
    }

    /// What the nth sector of a write holds whose first holds this.
    pub fn nth(self, n: u8) -> Pattern {
        Pattern {
            first: self.first.wrapping_add(n.wrapping_mul(31)),
            step: self.step,
        }
    }

    /// Adds the bytes of such a sector.
    pub fn put_to(self, text: &mut Text) {
        let mut bytes = [0; SECTOR_BYTES];
        let mut byte = self.first;
        for place in 0..SECTOR_BYTES {
            bytes[place] = byte;
            byte = byte.wrapping_add(self.step);
        }
        text.put_bytes(&bytes);
    }
}

/// Sectors of a volume or a snapshot.
#[derive(Clone, Copy)]
pub struct Range {
    pub volume: u8,
    pub lba: u8,
    pub count: u8,
}

impl Range {
    /// Adds where it begins behind its words.
    fn put_start(self, words: &str, text: &mut Text) {
        text.put_number(words, u64::from(self.volume));
        text.put_number(" ", u64::from(self.lba));
    }

    /// Adds it behind its words.
    fn put_to(self, words: &str, text: &mut Text) {
        self.put_start(words, text);
        text.put_number(" ", u64::from(self.count));
    }
}

/// A request.
#[derive(Clone, Copy)]
pub enum Ask {
    Create { volume: u8, sectors: u8 },
    Write { range: Range, pattern: Pattern },
    Fill { range: Range, byte: u8 },
    Zero { range: Range },
    Read { range: Range },
    Snapshot { volume: u8, new: u8 },
    Clone { volume: u8, new: u8 },
    /// To a range of as many sectors.
    Copy { from: Range, to: Range },
    Destroy { volume: u8 },
    List,
    Status,
    Checkpoint,
    /// Of the patch of an index of a table, and the next one.
    Merge { table: Table, index: u8 },
    Flatten { volume: u8 },
    /// A line that is no request.
    Nonsense,
}

impl Ask {
    /// Whether it reads sectors.
    pub fn is_read(&self) -> bool {
        matches!(self, Ask::Read { .. })
    }

    /// Whether it is a line that is no request.
    pub fn is_nonsense(&self) -> bool {
        matches!(self, Ask::Nonsense)
    }

    /// Adds its text.
    pub fn put_to(&self, text: &mut Text) {
        self.put_line(text);
        text.put("\n");
        if let Ask::Write { range, pattern } = self {
            for n in 0..range.count {
                pattern.nth(n).put_to(text);
            }
        }
    }

    fn put_line(&self, text: &mut Text) {
        match *self {
            Ask::Create { volume, sectors } => {
                text.put_number("create v", u64::from(volume));
                text.put_number(" ", u64::from(sectors));
            }
            Ask::Write { range, .. } => range.put_to("write v", text),
            Ask::Fill { range, byte } => {
                range.put_to("fill v", text);
                text.put_number(" ", u64::from(byte));
            }
            Ask::Zero { range } => range.put_to("zero v", text),
            Ask::Read { range } => range.put_to("read v", text),
            Ask::Snapshot { volume, new } => {
                text.put_number("snapshot v", u64::from(volume));
                text.put_number(" v", u64::from(new));
            }
            Ask::Clone { volume, new } => {
                text.put_number("clone v", u64::from(volume));
                text.put_number(" v", u64::from(new));
            }
            Ask::Copy { from, to } => {
                from.put_start("copy v", text);
                to.put_to(" v", text);
            }
            Ask::Destroy { volume } => text.put_number("destroy v", u64::from(volume)),
            Ask::List => text.put("list"),
            Ask::Status => text.put("status"),
            Ask::Checkpoint => text.put("checkpoint"),
            Ask::Merge { table, index } => text.put_number(words_of(table), u64::from(index)),
            Ask::Flatten { volume } => text.put_number("flatten v", u64::from(volume)),
            Ask::Nonsense => text.put("list v1"),
        }
    }
}

/// Puts a request behind the others. False where memory is wanting.
pub fn push_ask(asks: &mut Vec<Ask>, ask: Ask) -> bool {
    asks.push(ask).is_ok()
}

/// The words for a merge of a table's patches.
fn words_of(table: Table) -> &'static str {
    match table {
        Table::Object => "merge object ",
        Table::Medium => "merge medium ",
        Table::Address => "merge address ",
        Table::Segment => "merge segment ",
        Table::Elision => "merge elision ",
    }
}

/// No volume is asked for that is greater.
pub const SECTORS: u8 = 100;

/// The names of volumes and snapshots.
pub const VOLUMES: u8 = 8;

/// The most sectors of a request.
pub const COUNT: u8 = 64;

/// Sectors of a volume or a snapshot, mostly within it.
fn range_in(random: &mut Random, of: &Volume) -> Range {
    let lba = random.byte_below(of.count);
    let left = of.count.saturating_sub(lba).min(COUNT);
    let count = if random.once_in(6) {
        random.byte_below(COUNT)
    } else {
        random.byte_below(left.min(12))
    };
    Range {
        volume: of.number,
        lba,
        count: count.saturating_add(1),
    }
}

/// A request by chance: now and then a checkpoint, a merge, a flattening or a status, and else of sectors or names.
pub fn any_ask(random: &mut Random, volumes: &[Volume]) -> Ask {
    match random.below(100) {
        0..=2 => Ask::Checkpoint,
        3 | 4 => Ask::Status,
        5..=7 => any_merge(random),
        8..=11 => Ask::Flatten {
            volume: any_of(random, volumes).number,
        },
        _ => any_use(random, volumes),
    }
}

/// A merge by chance, mostly of the oldest two patches.
pub fn any_merge(random: &mut Random) -> Ask {
    let table = match random.below(10) {
        0 | 1 => Table::Object,
        2..=4 => Table::Address,
        5 | 6 => Table::Segment,
        7 | 8 => Table::Medium,
        _ => Table::Elision,
    };
    let index = if random.once_in(3) {
        random.byte_below(3)
    } else {
        0
    };
    Ask::Merge { table, index }
}

/// One of these by chance where there are some, and now and then one that may not be there.
fn any_of(random: &mut Random, volumes: &[Volume]) -> Volume {
    let stranger = Volume::new(random.byte_below(VOLUMES), SECTORS);
    let place = random.below(volumes.len() as u64) as usize;
    if random.once_in(12) {
        stranger
    } else {
        *volumes.get(place).unwrap_or(&stranger)
    }
}

/// A copy by chance: now and then of all, as far as the other one goes.
fn any_copy(random: &mut Random, from: &Volume, to: &Volume) -> Ask {
    let (from, to) = if random.once_in(4) {
        (from.whole(), to.whole())
    } else {
        (range_in(random, from), range_in(random, to))
    };
    let count = from.count.min(to.count);
    Ask::Copy {
        from: Range { count, ..from },
        to: Range { count, ..to },
    }
}

/// A request by chance of one of these where there are some, and mostly one that isn't refused.
fn any_use(random: &mut Random, volumes: &[Volume]) -> Ask {
    let one = any_of(random, volumes);
    let other = any_of(random, volumes);
    // Snapshots are seldom asked to take a write.
    let (from, to) = if one.is_snapshot {
        (one, other)
    } else {
        (other, one)
    };
    let range = range_in(random, &to);
    let name = random.byte_below(VOLUMES);
    // Where there is none, mostly one is made.
    let kinds = if volumes.is_empty() { 50 } else { 25 };
    match random.below(kinds) {
        0..=5 => Ask::Write {
            range,
            pattern: Pattern {
                first: random.any_byte(),
                step: random.any_byte(),
            },
        },
        6 | 7 => Ask::Fill {
            range,
            byte: random.any_byte(),
        },
        8 => Ask::Zero { range },
        9 => Ask::Read { range },
        10 => if random.once_in(2) {
            Ask::List
        } else {
            Ask::Nonsense
        },
        11 | 12 => Ask::Snapshot {
            volume: one.number,
            new: name,
        },
        13 | 14 => Ask::Clone {
            volume: one.number,
            new: name,
        },
        15..=17 => any_copy(random, &from, &to),
        18..=20 => Ask::Destroy { volume: one.number },
        _ => Ask::Create {
            volume: name,
            sectors: random.byte_below(SECTORS + 1),
        },
    }
}
