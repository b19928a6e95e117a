// What is known of an array beside its volumes, and what a status may say of it.
use pur_base::Table;

/// The slots of the log.
const SLOTS: u64 = 64;

/// What a checkpoint takes at most: data segments, and segments of patches.
const DATA_SEGMENTS: u64 = 6;

const PATCH_SEGMENTS: u64 = 5;

/// The most sectors of a data segment.
const SEGMENT_SECTORS: u64 = 840;

/// The units of a drive that segments may take.
const FREE_UNITS: u64 = 61;

/// The groups that are asked for where a command is added, and where a checkpoint is asked for.
const ADDING_GROUPS: u64 = 24;

const CHECKPOINT_GROUPS: u64 = 12;

/// And where a merge is asked for: patches of so few facts have a segment each.
const MERGE_GROUPS: u64 = 12 + 2;

/// And where a flattening is.
const FLATTEN_GROUPS: u64 = 16;

/// For so many segments a new array has room.
const ROOM: u64 = 74;

/// How many devices of a kind the record may name.
#[derive(Clone, Copy)]
struct Members {
    least: u64,
    most: u64,
}

impl Members {
    /// Of so many where so many may be left out, and so many must be.
    fn narrow(&mut self, all: u64, may: u64, must: u64) {
        self.least = all.saturating_sub(may);
        self.most = self.most.min(all.saturating_sub(must));
    }

    /// Whether it may name so many. None joins, so that it names no more from now on.
    fn see(&mut self, shown: u64) -> bool {
        let is_right = self.least <= shown && shown <= self.most;
        self.most = shown;
        is_right
    }
}

/// The drives, of which nine are named at least, and the NVRAM devices, of which one is.
const DRIVES: u64 = 11;

const NVRAMS: u64 = 2;

/// What a command adds to tables.
#[derive(Clone, Copy)]
pub enum Added {
    Object,
    /// Addresses, and the segments that a checkpoint makes of their sectors.
    Sectors,
    /// Addresses alone.
    Zeros,
    /// Objects and mediums.
    Mediums,
    /// The same, where nothing may lead to a medium any more.
    Copied,
    /// An elision, and nothing may lead to mediums any more.
    Removal,
}

/// How many patches a table has, and whether something was added to it since the last checkpoint.
#[derive(Clone, Copy)]
struct Patches {
    /// So many at least, and at most.
    least: u64,
    most: u64,
    is_added_to: bool,
    /// Whether what was added may be of no use any more: sectors that were zeroed behind their write are not placed.
    may_be_undone: bool,
}

/// Of a new array.
const NO_PATCHES: Patches = Patches {
    least: 0,
    most: 0,
    is_added_to: false,
    may_be_undone: false,
};

impl Patches {
    /// A checkpoint adds one, where something was added.
    fn flush(&mut self) {
        if self.is_added_to {
            self.least = self.least.saturating_add(u64::from(!self.may_be_undone));
            self.most = self.most.saturating_add(1);
        }
        self.is_added_to = false;
        self.may_be_undone = false;
    }

    /// Something may have been added, or not.
    fn touch(&mut self) {
        if !self.is_added_to {
            self.is_added_to = true;
            self.may_be_undone = true;
        }
    }

    /// Two are merged, which are there: into one, or into none where no fact is left.
    fn merge(&mut self, may_vanish: bool) {
        let gone = if may_vanish { 2 } else { 1 };
        self.least = self.least.max(2).saturating_sub(gone);
        self.most = self.most.saturating_sub(1);
    }
}

/// What is known of an array's log, of its checkpoints and of its record.
#[derive(Clone, Copy)]
pub struct Counts {
    /// The slots of the log that are taken.
    logged: u64,
    /// The checkpoints that were made.
    flushes: u64,
    /// The drives and the NVRAM devices that the record may name.
    drives: Members,
    nvrams: Members,
    /// No record of a lower generation is in force.
    generation: u64,
    /// Whether room was ever wanted.
    lacked_space: bool,
    /// Whether two patches were ever merged.
    has_merged: bool,
    /// Whether a medium was ever flattened.
    has_flattened: bool,
    /// Whether objects, mediums or addresses may have been elided.
    has_elided: bool,
    /// The patches of tables.
    objects: Patches,
    mediums: Patches,
    addresses: Patches,
    segments: Patches,
    elisions: Patches,
}

/// The numbers of a status.
#[derive(Clone, Copy)]
pub struct Numbers {
    controller: u64,
    objects: u64,
    groups: u64,
    drives: u64,
    nvrams: u64,
    free: u64,
    segments: u64,
    patch_segments: u64,
    placed: u64,
    generation: u64,
}

impl Counts {
    /// Of a new array.
    pub fn new() -> Counts {
        Counts {
            logged: 0,
            flushes: 0,
            drives: Members {
                least: DRIVES,
                most: DRIVES,
            },
            nvrams: Members {
                least: NVRAMS,
                most: NVRAMS,
            },
            generation: 1,
            lacked_space: false,
            has_merged: false,
            has_flattened: false,
            has_elided: false,
            objects: NO_PATCHES,
            mediums: NO_PATCHES,
            addresses: NO_PATCHES,
            segments: NO_PATCHES,
            elisions: NO_PATCHES,
        }
    }

    /// So many drives and NVRAM devices may be left out, and so many must be.
    pub fn narrow(&mut self, drives: (u64, u64), nvrams: (u64, u64)) {
        self.drives.narrow(DRIVES, drives.0.min(2), drives.1);
        self.nvrams.narrow(NVRAMS, nvrams.0.min(1), nvrams.1);
    }

    /// Whether no slot of the log is free.
    pub fn is_full(&self) -> bool {
        self.logged >= SLOTS
    }

    /// Whether room was ever wanted.
    pub fn lacked_space(&self) -> bool {
        self.lacked_space
    }

    /// Whether two patches were ever merged.
    pub fn has_merged(&self) -> bool {
        self.has_merged
    }

    /// Whether a medium was ever flattened.
    pub fn has_flattened(&self) -> bool {
        self.has_flattened
    }

    /// A medium is flattened. A stop forgets it, unless a checkpoint comes first.
    pub fn flatten(&mut self) {
        self.has_flattened = true;
        self.mediums.touch();
        self.addresses.touch();
    }

    /// Room is wanted.
    pub fn lack_space(&mut self) {
        self.lacked_space = true;
    }

    /// A checkpoint is made.
    pub fn flush(&mut self) {
        self.logged = 0;
        self.flushes = self.flushes.saturating_add(1);
        self.objects.flush();
        self.mediums.flush();
        self.addresses.flush();
        self.segments.flush();
        // It may elide segments and mediums or not, and writes that with the elisions of objects.
        self.elisions.may_be_undone = !self.elisions.is_added_to;
        self.elisions.is_added_to = true;
        self.elisions.flush();
    }

    /// The patches of a table.
    fn patches(&self, table: Table) -> Patches {
        match table {
            Table::Object => self.objects,
            Table::Medium => self.mediums,
            Table::Address => self.addresses,
            Table::Segment => self.segments,
            Table::Elision => self.elisions,
        }
    }

    /// Whether a table has a patch of that index, and one behind it.
    pub fn has_pair(&self, table: Table, index: u64) -> bool {
        index.saturating_add(1) < self.patches(table).least
    }

    /// Whether it may have them.
    pub fn may_have_pair(&self, table: Table, index: u64) -> bool {
        index.saturating_add(1) < self.patches(table).most
    }

    /// Two patches are merged, where they may be there. None is left where all their facts are elided, or say that nothing begins there, as those of a medium that
    /// was flattened do.
    pub fn merge(&mut self, table: Table, index: u64) {
        if !self.may_have_pair(table, index) {
            return;
        }
        self.has_merged = true;
        match table {
            Table::Object => self.objects.merge(self.has_elided),
            Table::Medium => self.mediums.merge(self.has_elided || self.has_flattened),
            Table::Address => self.addresses.merge(self.has_elided),
            Table::Segment => self.segments.merge(true),
            Table::Elision => self.elisions.merge(false),
        }
    }

    /// A command is logged that adds this, behind a checkpoint where no slot is free.
    pub fn log(&mut self, added: Added) {
        if self.is_full() {
            self.flush();
        }
        self.logged = self.logged.saturating_add(1);
        match added {
            Added::Object => self.objects.is_added_to = true,
            Added::Sectors => {
                self.addresses.is_added_to = true;
                self.segments.is_added_to = true;
            }
            Added::Zeros => {
                self.addresses.is_added_to = true;
                self.segments.may_be_undone = true;
            }
            Added::Mediums | Added::Copied => {
                self.objects.is_added_to = true;
                self.mediums.is_added_to = true;
                self.has_elided = self.has_elided || matches!(added, Added::Copied);
            }
            Added::Removal => {
                self.elisions.is_added_to = true;
                self.has_elided = true;
            }
        }
    }

    /// So many segments were given at most, each of which has a unit of a drive at most.
    fn given(&self) -> u64 {
        self.flushes.saturating_mul(DATA_SEGMENTS + PATCH_SEGMENTS)
    }

    /// For so many more segments there is room at least, by whatever nine drives.
    fn groups(&self) -> u64 {
        FREE_UNITS.saturating_sub(self.given())
    }

    /// Whether room may be wanted where a command is added.
    pub fn may_lack_space(&self) -> bool {
        self.groups() < ADDING_GROUPS
    }

    /// Whether room may be wanted where a checkpoint is asked for.
    pub fn may_lack_space_to_flush(&self) -> bool {
        self.groups() < CHECKPOINT_GROUPS
    }

    /// Whether room may be wanted where a merge is asked for.
    pub fn may_lack_space_to_merge(&self) -> bool {
        self.groups() < MERGE_GROUPS
    }

    /// Whether room may be wanted where a flattening is asked for.
    pub fn may_lack_space_to_flatten(&self) -> bool {
        self.groups() < FLATTEN_GROUPS
    }

    /// Sees the numbers of a status, of an array of so many objects: whether they may be its own.
    pub fn see(&mut self, shown: &Numbers, objects: u64) -> bool {
        let is_right = shown.controller == 0
            && shown.objects == objects
            && shown.free == SLOTS.saturating_sub(self.logged)
            && self.is_room(shown)
            && self.generation <= shown.generation;
        self.generation = shown.generation;
        let has_drives = self.drives.see(shown.drives);
        let has_nvrams = self.nvrams.see(shown.nvrams);
        is_right && has_drives && has_nvrams
    }

    /// Whether the checkpoints may have left so much room, and made so many segments.
    fn is_room(&self, shown: &Numbers) -> bool {
        self.groups() <= shown.groups
            && shown.groups <= ROOM
            && shown.segments <= self.flushes.saturating_mul(DATA_SEGMENTS)
            && shown.patch_segments <= self.flushes.saturating_mul(PATCH_SEGMENTS)
            && shown.placed <= shown.segments.saturating_mul(SEGMENT_SECTORS)
            && shown.segments <= shown.placed
    }
}

/// The number that digits are, and how many they are.
fn number_of(text: &[u8]) -> Option<(u64, usize)> {
    let mut number = 0u64;
    let mut digits = 0usize;
    for byte in text {
        if !byte.is_ascii_digit() {
            break;
        }
        number = number
            .wrapping_mul(10)
            .wrapping_add(u64::from(*byte - b'0'));
        digits = digits.wrapping_add(1);
    }
    if digits == 0 {
        None
    } else {
        Some((number, digits))
    }
}

/// Whether the byte stands there.
fn is_at(text: &[u8], at: usize, byte: u8) -> bool {
    match text.get(at) {
        Some(found) => *found == byte,
        None => false,
    }
}

/// What stands in front of the numbers of a status.
const STATUS: &[u8] = b"status";

/// The ten numbers of a status with which a text begins, and how long the reply is.
fn ten_numbers(text: &[u8]) -> Option<([u64; 10], usize)> {
    if !text.starts_with(STATUS) {
        return None;
    }
    let mut at = STATUS.len();
    let mut of = [0; 10];
    for place in 0..10 {
        if !is_at(text, at, b' ') {
            return None;
        }
        let (number, digits) = number_of(text.get(at.wrapping_add(1)..).unwrap_or(&[]))?;
        of[place] = number;
        at = at.wrapping_add(1).wrapping_add(digits);
    }
    if is_at(text, at, b'\n') {
        Some((of, at.wrapping_add(1)))
    } else {
        None
    }
}

/// What a status tells with which a text begins, and how long the reply is.
pub fn numbers_of(text: &[u8]) -> Option<(Numbers, usize)> {
    let (of, size) = ten_numbers(text)?;
    let numbers = Numbers {
        controller: of[0],
        objects: of[1],
        groups: of[2],
        drives: of[3],
        nvrams: of[4],
        free: of[5],
        segments: of[6],
        patch_segments: of[7],
        placed: of[8],
        generation: of[9],
    };
    Some((numbers, size))
}
