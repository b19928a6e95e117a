// A look as one JSON object.
use crate::page::name_text;
use crate::picture::{bar_of, count_of};
use crate::slot_ranges::{Logs, front_of, log_len, range_to};
use crate::texts::{TABLES, cause_text, kind_text, said_of_drive, said_of_nvram, slot_text};
use crate::{
    Found, Looked, Numbers, ObjectSeen, RecordSeen, SegmentSeen, TableCounts, There, Unit, Waiting,
};
use boot_codec::{DRIVE_FLAGS, NVRAM_FLAGS};
use log_codec::LOG_SLOTS;
use pur_base::NoMemory;
use serde_json::{Map, Value, put};
use std::alloc::{AllocError, Global};

/// The members of an object, or the items of a list. That memory ran out is told at its end.
#[derive(Drop)]
struct Parts {
    alloc: Global,
    members: Map<String, Value>,
    items: Vec<Value>,
    has_failed: bool,
}

impl Parts {
    fn new(alloc: Global) -> Parts {
        Parts {
            alloc,
            members: Map::new(alloc),
            items: Vec::new(alloc),
            has_failed: false,
        }
    }

    /// Adds a member.
    fn add(&mut self, key: &str, value: Result<Value, AllocError>) {
        let is_done = match value {
            Ok(value) => put(&mut self.members, self.alloc, key, value).is_ok(),
            Err(_) => false,
        };
        self.has_failed = self.has_failed || !is_done;
    }

    fn add_number(&mut self, key: &str, number: u64) {
        self.add(key, Ok(Value::from(number)));
    }

    /// Adds a member for each of these numbers.
    fn add_numbers(&mut self, numbers: &[(&str, u64)]) {
        for (key, number) in numbers {
            self.add_number(key, *number);
        }
    }

    fn add_text(&mut self, key: &str, text: &str) {
        self.add(key, Value::try_from_str(self.alloc, text));
    }

    /// Adds an item.
    fn push(&mut self, value: Result<Value, AllocError>) {
        let is_done = match value {
            Ok(value) => self.items.push(value).is_ok(),
            Err(_) => false,
        };
        self.has_failed = self.has_failed || !is_done;
    }

    /// The object of the members.
    fn object(self) -> Result<Value, AllocError> {
        let Parts {
            members,
            has_failed,
            ..
        } = self;
        if has_failed {
            Err(AllocError)
        } else {
            Ok(Value::Object(members))
        }
    }

    /// The list of the items.
    fn list(self) -> Result<Value, AllocError> {
        let Parts {
            items,
            has_failed,
            ..
        } = self;
        if has_failed {
            Err(AllocError)
        } else {
            Ok(Value::Array(items))
        }
    }
}

fn flags_of(alloc: Global, flags: &[bool]) -> Result<Value, AllocError> {
    let mut list = Parts::new(alloc);
    for flag in flags {
        list.push(Ok(Value::Bool(*flag)));
    }
    list.list()
}

fn record_of(alloc: Global, seen: &Option<RecordSeen>) -> Result<Value, AllocError> {
    let Some(record) = seen else {
        return Ok(Value::Null);
    };
    let mut object = Parts::new(alloc);
    object.add_number("generation", record.generation);
    object.add_text("slot", slot_text(record.slot));
    object.add("drives", flags_of(alloc, &record.members.drives));
    object.add("nvrams", flags_of(alloc, &record.members.nvrams));
    object.add("holding", flags_of(alloc, &record.holding));
    object.object()
}

/// A word for each drive.
fn drives_of(alloc: Global, looked: &Looked, there: &There) -> Result<Value, AllocError> {
    let mut list = Parts::new(alloc);
    let count = usize::from(looked.slots).min(DRIVE_FLAGS);
    for slot in 0..count {
        let said = said_of_drive(looked.drives[slot], there.drives[slot]);
        list.push(Value::try_from_str(alloc, said.word));
    }
    list.list()
}

/// A word for each NVRAM device, where there is a record.
fn nvrams_of(alloc: Global, looked: &Looked, there: &There) -> Result<Value, AllocError> {
    let mut list = Parts::new(alloc);
    if let Some(record) = &looked.record {
        let count = log_len(&looked.logs);
        for device in 0..NVRAM_FLAGS {
            let is_named = record.members.nvrams[device];
            let said = said_of_nvram(&looked.logs[device], count, is_named, there.nvrams[device]);
            list.push(Value::try_from_str(alloc, said.word));
        }
    }
    list.list()
}

/// How many commands each NVRAM device shows in front of the first slot in which it shows none.
fn logs_of(alloc: Global, logs: &Logs) -> Result<Value, AllocError> {
    let mut list = Parts::new(alloc);
    for log in logs {
        match log {
            Some(slots) => list.push(Ok(Value::from(front_of(slots)))),
            None => list.push(Ok(Value::Null)),
        }
    }
    list.list()
}

/// The slots in which commands of the log stand, and on which devices.
fn slots_of(alloc: Global, logs: &Logs) -> Result<Value, AllocError> {
    let mut list = Parts::new(alloc);
    for last in 0..LOG_SLOTS {
        if let Some(range) = range_to(logs, last) {
            let mut object = Parts::new(alloc);
            object.add_numbers(&[("first", range.first as u64), ("last", last as u64)]);
            object.add("nvrams", flags_of(alloc, &range.on));
            list.push(object.object());
        }
    }
    list.list()
}

fn status_of(alloc: Global, n: &Numbers) -> Result<Value, AllocError> {
    let mut object = Parts::new(alloc);
    object.add_numbers(&[
        ("generation", n.generation),
        ("drives", n.drives as u64),
        ("holding", n.holding as u64),
        ("nvrams", n.nvrams as u64),
        ("answering", n.answering as u64),
        ("groups", u64::from(n.groups)),
        ("segments", n.segments as u64),
        ("placed", n.placed),
        ("patch_segments", n.patch_segments as u64),
        ("free_slots", n.free_slots as u64),
    ]);
    object.object()
}

fn units_of(alloc: Global, slots: u8, found: &Found) -> Result<Value, AllocError> {
    let mut list = Parts::new(alloc);
    for slot in 0..slots {
        let units = found.units.of_drive(slot);
        let mut object = Parts::new(alloc);
        object.add_number("free", count_of(units, Unit::Free) as u64);
        object.add_text("bar", bar_of(units).text());
        list.push(object.object());
    }
    list.list()
}

fn tables_of(alloc: Global, tables: &[TableCounts; 5]) -> Result<Value, AllocError> {
    let mut list = Parts::new(alloc);
    for i in 0..5 {
        let table = &tables[i];
        let mut object = Parts::new(alloc);
        object.add_text("table", TABLES[i]);
        object.add_numbers(&[
            ("patches", table.patches as u64),
            ("segments", table.segments as u64),
            ("facts", table.facts),
            ("visible", table.visible as u64),
        ]);
        list.push(object.object());
    }
    list.list()
}

fn segments_of(alloc: Global, segments: &[SegmentSeen]) -> Result<Value, AllocError> {
    let mut list = Parts::new(alloc);
    for seen in segments {
        let mut object = Parts::new(alloc);
        object.add_numbers(&[
            ("segment", seen.segment.segment.0),
            ("placed", u64::from(seen.segment.placed)),
            ("named", u64::from(seen.named)),
        ]);
        list.push(object.object());
    }
    list.list()
}

fn objects_of(alloc: Global, objects: &[ObjectSeen]) -> Result<Value, AllocError> {
    let mut list = Parts::new(alloc);
    for seen in objects {
        let mut object = Parts::new(alloc);
        object.add_text("name", name_text(&seen.object.name));
        object.add_text("kind", kind_text(seen.object.kind));
        object.add_numbers(&[
            ("sectors", u64::from(seen.object.sectors)),
            ("stored", u64::from(seen.stored)),
        ]);
        list.push(object.object());
    }
    list.list()
}

fn waiting_of(alloc: Global, waiting: &Waiting) -> Result<Value, AllocError> {
    let mut object = Parts::new(alloc);
    object.add_numbers(&[
        ("creates", waiting.creates as u64),
        ("writes", waiting.writes as u64),
        ("fills", waiting.fills as u64),
        ("zeroes", waiting.zeroes as u64),
        ("snapshots", waiting.snapshots as u64),
        ("clones", waiting.clones as u64),
        ("copies", waiting.copies as u64),
        ("destroys", waiting.destroys as u64),
    ]);
    object.object()
}

/// What an opening would find.
fn found_of(alloc: Global, slots: u8, found: &Found) -> Result<Value, AllocError> {
    let mut object = Parts::new(alloc);
    object.add("numbers", status_of(alloc, &found.numbers));
    object.add("nvrams", flags_of(alloc, &found.nvrams));
    object.add("waiting", waiting_of(alloc, &found.waiting));
    object.add("tables", tables_of(alloc, &found.tables));
    object.add("segments", segments_of(alloc, &found.segments));
    object.add("objects", objects_of(alloc, &found.objects));
    object.add("units", units_of(alloc, slots, found));
    object.object()
}

fn look_of(alloc: Global, looked: &Looked, there: &There) -> Result<Value, AllocError> {
    let mut object = Parts::new(alloc);
    object.add_numbers(&[
        ("slots", u64::from(looked.slots)),
        ("units", u64::from(looked.units)),
    ]);
    object.add("drives", drives_of(alloc, looked, there));
    object.add("nvrams", nvrams_of(alloc, looked, there));
    object.add("logs", logs_of(alloc, &looked.logs));
    object.add("log_slots", slots_of(alloc, &looked.logs));
    object.add("record", record_of(alloc, &looked.record));
    match &looked.found {
        Ok(found) => {
            object.add("cause", Ok(Value::Null));
            object.add("found", found_of(alloc, looked.slots, found));
        }
        Err(cause) => {
            object.add_text("cause", cause_text(cause));
            object.add("found", Ok(Value::Null));
        }
    }
    object.object()
}

/// A look as one JSON object, on a line.
pub fn json_of(alloc: Global, looked: &Looked, there: &There) -> Result<String, NoMemory> {
    let mut text = look_of(alloc, looked, there)?.to_string(alloc)?;
    text.push('\n')?;
    Ok(text)
}
