// What the array is to answer.
use crate::counts::{Added, Counts, numbers_of};
use crate::devices::Failures;
use crate::request::{Ask, Pattern, Range, VOLUMES};
use crate::text::Text;
use crate::volume::Volume;
use pur_base::NoMemory;
use std::alloc::Global;

/// What a request is answered where more devices fail than can be borne. A read is where its sectors stand on drives of which three fail.
const NO_DEVICE: &[u8] = b"no device\n";

/// What a command, a checkpoint or a merge is answered where too few units are free.
const NO_SPACE: &[u8] = b"no space\n";

/// What a merge is answered where the table has no such two patches.
const NOTHING_THERE: &[u8] = b"no nothing-there\n";

/// How an output goes on.
#[derive(Clone, Copy)]
pub enum Heard {
    /// With a reply of so many bytes, which the array may give.
    Whole(usize),
    /// It ends before the reply does.
    Part,
    /// With something else.
    Other,
}

/// What a flattening is answered that leaves a range, and one that finds none.
const LEFT: &[u8] = b"ok left\n";

const IDLE: &[u8] = b"ok idle\n";

/// What requests are answered behind that, but for lines that are none.
const NO_HALTED: &[u8] = b"no halted\n";

const NO_SYNTAX: &[u8] = b"no syntax\n";

/// How an output goes on where just this reply is right.
fn heard_as(reply: &[u8], rest: &[u8]) -> Heard {
    if rest.starts_with(reply) {
        Heard::Whole(reply.len())
    } else if reply.starts_with(rest) {
        Heard::Part
    } else {
        Heard::Other
    }
}

/// Whether an output is that of requests behind the one in which a session was halted.
fn are_halted(asks: &[Ask], output: &[u8]) -> bool {
    let mut at = 0usize;
    for ask in asks {
        let reply = if ask.is_nonsense() {
            NO_SYNTAX
        } else {
            NO_HALTED
        };
        if !output.get(at..).unwrap_or(&[]).starts_with(reply) {
            return false;
        }
        at = at.saturating_add(reply.len());
    }
    at == output.len()
}

/// An array: its volumes and snapshots in order of creation, so many of them, and what is known of its log, its record and its checkpoints.
#[derive(Clone, Copy)]
pub struct Model {
    volumes: [Volume; VOLUMES as usize],
    count: usize,
    counts: Counts,
}

/// What the nth sector holds that a request changes.
fn pattern_by(ask: &Ask, n: u8) -> Pattern {
    match ask {
        Ask::Write { pattern, .. } => pattern.nth(n),
        Ask::Fill { byte, .. } => Pattern::filled(*byte),
        _ => Pattern::filled(0),
    }
}

impl Model {
    /// The array of nothing.
    pub fn new() -> Model {
        Model {
            volumes: [Volume::new(0, 0); VOLUMES as usize],
            count: 0,
            counts: Counts::new(),
        }
    }

    /// Its volumes and snapshots.
    pub fn volumes(&self) -> &[Volume] {
        self.volumes.get(..self.count).unwrap_or(&[])
    }

    fn volume(&self, number: u8) -> Option<&Volume> {
        for volume in self.volumes() {
            if volume.number == number {
                return Some(volume);
            }
        }
        None
    }

    fn is_snapshot(&self, number: u8) -> bool {
        match self.volume(number) {
            Some(volume) => volume.is_snapshot,
            None => false,
        }
    }

    /// The sectors of a range, or why there are none.
    fn sectors(&self, range: Range) -> Result<&[Pattern], &'static str> {
        let Some(volume) = self.volume(range.volume) else {
            return Err("unknown");
        };
        let lba = range.lba as usize;
        match volume.sectors().get(lba..lba + range.count as usize) {
            Some(sectors) => Ok(sectors),
            None => Err("range"),
        }
    }

    /// Why sectors may not be read, if they may not.
    fn read_refusal(&self, range: Range) -> Option<&'static str> {
        match self.sectors(range) {
            Ok(_) => None,
            Err(why) => Some(why),
        }
    }

    /// Why sectors may not be replaced.
    fn write_refusal(&self, range: Range) -> Option<&'static str> {
        if self.is_snapshot(range.volume) {
            Some("read-only")
        } else {
            self.read_refusal(range)
        }
    }

    /// Why sectors may not be copied.
    fn copy_refusal(&self, from: Range, to: Range) -> Option<&'static str> {
        if self.volume(from.volume).is_none() {
            return Some("unknown");
        }
        let refusal = self.write_refusal(to);
        if refusal.is_some() {
            refusal
        } else {
            self.read_refusal(from)
        }
    }

    /// Why nothing new may be made of a volume or a snapshot.
    fn derive_refusal(&self, volume: u8, new: u8) -> Option<&'static str> {
        if self.volume(volume).is_none() {
            Some("unknown")
        } else if self.volume(new).is_some() {
            Some("taken")
        } else {
            None
        }
    }

    /// Why a request is refused, if it is.
    fn refusal(&self, ask: &Ask) -> Option<&'static str> {
        match *ask {
            Ask::Create { volume, sectors } => {
                if self.volume(volume).is_some() {
                    Some("taken")
                } else if sectors == 0 {
                    Some("limit")
                } else {
                    None
                }
            }
            Ask::Write { range, .. } | Ask::Fill { range, .. } | Ask::Zero { range } => {
                self.write_refusal(range)
            }
            Ask::Read { range } => self.read_refusal(range),
            Ask::Snapshot { volume, new } | Ask::Clone { volume, new } => {
                self.derive_refusal(volume, new)
            }
            Ask::Copy { from, to } => self.copy_refusal(from, to),
            Ask::Destroy { volume } | Ask::Flatten { volume } => if self.volume(volume).is_some() {
                None
            } else {
                Some("unknown")
            },
            Ask::List | Ask::Status | Ask::Checkpoint | Ask::Merge { .. } => None,
            Ask::Nonsense => Some("syntax"),
        }
    }

    /// Adds the text of its answer but to a status.
    fn put_reply(&self, ask: &Ask, text: &mut Text) {
        if let Some(why) = self.refusal(ask) {
            text.put("no ");
            text.put(why);
            text.put("\n");
            return;
        }
        match *ask {
            Ask::Read { range } => self.put_sectors(range, text),
            Ask::List => self.put_names(text),
            _ => text.put("ok\n"),
        }
    }

    fn put_sectors(&self, range: Range, text: &mut Text) {
        text.put_number("data ", u64::from(range.count));
        text.put("\n");
        for pattern in self.sectors(range).unwrap_or(&[]) {
            pattern.put_to(text);
        }
    }

    fn put_names(&self, text: &mut Text) {
        text.put_number("names ", self.count as u64);
        text.put("\n");
        for volume in self.volumes() {
            let kind = if volume.is_snapshot {
                " snapshot "
            } else {
                " volume "
            };
            text.put_number("v", u64::from(volume.number));
            text.put_number(kind, u64::from(volume.count));
            text.put("\n");
        }
    }

    /// Whether a request is logged, and accepted.
    pub fn takes(&self, ask: &Ask) -> bool {
        match ask {
            Ask::Read { .. }
            | Ask::List
            | Ask::Status
            | Ask::Checkpoint
            | Ask::Merge { .. }
            | Ask::Flatten { .. }
            | Ask::Nonsense => false,
            _ => self.refusal(ask).is_none(),
        }
    }

    /// What a command adds to tables.
    fn added_by(&self, ask: &Ask) -> Added {
        match *ask {
            Ask::Create { .. } => Added::Object,
            Ask::Zero { .. } => Added::Zeros,
            Ask::Snapshot { volume, .. } => if self.is_snapshot(volume) {
                Added::Object
            } else {
                Added::Mediums
            },
            Ask::Clone { .. } => Added::Mediums,
            Ask::Copy { .. } => Added::Copied,
            Ask::Destroy { .. } => Added::Removal,
            _ => Added::Sectors,
        }
    }

    /// Goes on by a request, unless it's refused.
    pub fn apply(&mut self, ask: &Ask) {
        match ask {
            Ask::Checkpoint => self.counts.flush(),
            Ask::Merge { table, index } => self.counts.merge(*table, u64::from(*index)),
            Ask::Flatten { .. } => if self.refusal(ask).is_none() {
                self.counts.flatten();
            },
            _ => if self.takes(ask) {
                let added = self.added_by(ask);
                self.counts.log(added);
                self.change(ask);
            },
        }
    }

    /// The same array behind the checkpoint or the merge that a request makes, if it makes one.
    pub fn stored(&self, ask: &Ask) -> Option<Model> {
        let mut model = *self;
        match ask {
            Ask::Checkpoint => model.counts.flush(),
            Ask::Merge { table, index } => {
                if !self.may_merge(ask) {
                    return None;
                }
                model.counts.merge(*table, u64::from(*index));
            }
            _ => {
                if !self.counts.is_full() || !self.takes(ask) {
                    return None;
                }
                model.counts.flush();
            }
        }
        Some(model)
    }

    /// Whether a request is a merge of patches that may be there.
    fn may_merge(&self, ask: &Ask) -> bool {
        match ask {
            Ask::Merge { table, index } => self.counts.may_have_pair(*table, u64::from(*index)),
            _ => false,
        }
    }

    /// Whether it is a merge of patches of which one may be missing.
    fn may_miss(&self, ask: &Ask) -> bool {
        match ask {
            Ask::Merge { table, index } => !self.counts.has_pair(*table, u64::from(*index)),
            _ => false,
        }
    }

    /// Whether a request may be answered `no space`.
    fn may_lack_space(&self, ask: &Ask) -> bool {
        match ask {
            Ask::Checkpoint => self.counts.may_lack_space_to_flush(),
            Ask::Merge { .. } => self.counts.may_lack_space_to_merge(),
            Ask::Flatten { .. } => {
                self.refusal(ask).is_none() && self.counts.may_lack_space_to_flatten()
            }
            // It takes no room but that of the checkpoint in front of it.
            Ask::Destroy { .. } => {
                self.takes(ask) && self.counts.is_full() && self.counts.may_lack_space_to_flush()
            }
            _ => self.takes(ask) && self.counts.may_lack_space(),
        }
    }

    /// Whether the whole rest of an output is that of a session that was halted in the first of these requests.
    pub fn is_halted(&self, asks: &[Ask], rest: &[u8]) -> bool {
        let Some(first) = asks.first() else {
            return false;
        };
        let may_halt = matches!(first, Ask::Checkpoint)
            || self.may_merge(first)
            || self.takes(first);
        if !may_halt || !rest.starts_with(NO_DEVICE) {
            return false;
        }
        let behind = rest.get(NO_DEVICE.len()..).unwrap_or(&[]);
        are_halted(asks.get(1..).unwrap_or(&[]), behind)
    }

    /// What failures of devices tell of the record.
    pub fn heed(&mut self, failures: &Failures) {
        self.counts.narrow(failures.drives(), failures.nvrams());
    }

    /// Whether a request was answered `no space`.
    pub fn lacked_space(&self) -> bool {
        self.counts.lacked_space()
    }

    /// Whether two patches were ever merged.
    pub fn has_merged(&self) -> bool {
        self.counts.has_merged()
    }

    /// Whether a medium was ever flattened.
    pub fn has_flattened(&self) -> bool {
        self.counts.has_flattened()
    }

    /// How an output goes on with the reply to a request, and the array by it. Where three drives fail meanwhile, sectors may be out of reach of a read.
    pub fn hear(
        &mut self,
        alloc: Global,
        ask: &Ask,
        rest: &[u8],
        three_fail: bool,
    ) -> Result<Heard, NoMemory> {
        if three_fail && ask.is_read() && rest.starts_with(NO_DEVICE) {
            return Ok(Heard::Whole(NO_DEVICE.len()));
        }
        if rest.starts_with(NO_SPACE) && self.may_lack_space(ask) {
            self.counts.lack_space();
            return Ok(Heard::Whole(NO_SPACE.len()));
        }
        if self.may_miss(ask) {
            if rest.starts_with(NOTHING_THERE) {
                return Ok(Heard::Whole(NOTHING_THERE.len()));
            }
            if !self.may_merge(ask) {
                return Ok(heard_as(NOTHING_THERE, rest));
            }
        }
        match ask {
            Ask::Status => Ok(self.hear_status(rest)),
            Ask::Flatten { .. } => self.hear_flattening(alloc, ask, rest),
            _ => self.hear_usual(alloc, ask, rest),
        }
    }

    /// The text of its answer but to a status.
    fn reply(&self, alloc: Global, ask: &Ask) -> Result<Vec<u8>, NoMemory> {
        let mut text = Text::new(alloc);
        self.put_reply(ask, &mut text);
        text.end()
    }

    /// How an output goes on where just that is right, and the array by it.
    fn hear_usual(&mut self, alloc: Global, ask: &Ask, rest: &[u8]) -> Result<Heard, NoMemory> {
        let heard = heard_as(&self.reply(alloc, ask)?, rest);
        if matches!(heard, Heard::Whole(_)) {
            self.apply(ask);
        }
        Ok(heard)
    }

    /// How an output goes on with the reply to a flattening. Whether ranges are left isn't known here, since a stop forgets what was flattened.
    fn hear_flattening(
        &mut self,
        alloc: Global,
        ask: &Ask,
        rest: &[u8],
    ) -> Result<Heard, NoMemory> {
        let heard = self.hear_usual(alloc, ask, rest)?;
        if !matches!(heard, Heard::Other) || self.refusal(ask).is_some() {
            return Ok(heard);
        }
        if rest.starts_with(LEFT) {
            self.counts.flatten();
        }
        Ok(match heard_as(LEFT, rest) {
            Heard::Other => heard_as(IDLE, rest),
            left => left,
        })
    }

    /// How an output goes on with the reply to a status.
    fn hear_status(&mut self, rest: &[u8]) -> Heard {
        if rest.is_empty() {
            return Heard::Part;
        }
        let objects = self.count as u64;
        match numbers_of(rest) {
            Some((numbers, size)) => if self.counts.see(&numbers, objects) {
                Heard::Whole(size)
            } else {
                Heard::Other
            },
            None => Heard::Other,
        }
    }

    /// Does a request that is accepted.
    fn change(&mut self, ask: &Ask) {
        match *ask {
            Ask::Create { volume, sectors } => self.push(Volume::new(volume, sectors)),
            Ask::Write { range, .. } | Ask::Fill { range, .. } | Ask::Zero { range } => {
                for n in 0..range.count {
                    self.set(range, n, pattern_by(ask, n));
                }
            }
            Ask::Snapshot { volume, new } => self.derive(volume, new, true),
            Ask::Clone { volume, new } => self.derive(volume, new, false),
            Ask::Copy { from, to } => self.copy(from, to),
            Ask::Destroy { volume } => self.remove(volume),
            _ => {}
        }
    }

    fn push(&mut self, new: Volume) {
        if let Some(volume) = self.volumes.get_mut(self.count) {
            *volume = new;
            self.count = self.count.saturating_add(1);
        }
    }

    fn derive(&mut self, number: u8, new: u8, is_snapshot: bool) {
        let Some(volume) = self.volume(number) else {
            return;
        };
        let made = Volume {
            number: new,
            is_snapshot,
            ..*volume
        };
        self.push(made);
    }

    fn remove(&mut self, number: u8) {
        let before = *self;
        self.count = 0;
        for volume in before.volumes() {
            if volume.number != number {
                self.push(*volume);
            }
        }
    }

    /// Replaces sectors by those of another range, as they were before.
    fn copy(&mut self, from: Range, to: Range) {
        let before = *self;
        let mut n = 0u8;
        for pattern in before.sectors(from).unwrap_or(&[]) {
            self.set(to, n, *pattern);
            n = n.wrapping_add(1);
        }
    }

    fn set(&mut self, range: Range, n: u8, pattern: Pattern) {
        let lba = range.lba as usize + n as usize;
        for place in 0..self.volumes.len() {
            let volume = &mut self.volumes[place];
            if volume.number == range.volume {
                if let Some(sector) = volume.patterns.get_mut(lba) {
                    *sector = pattern;
                }
            }
        }
    }

    /// Requests that show all of it. False where memory is wanting.
    pub fn push_questions(&self, asks: &mut Vec<Ask>) -> bool {
        let mut are_pushed = true;
        for volume in self.volumes() {
            are_pushed = volume.push_questions(asks) && are_pushed;
        }
        are_pushed
    }
}
