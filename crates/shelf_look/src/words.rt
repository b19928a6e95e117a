// A look in words.
use crate::numbers::set_flags;
use crate::page::{Page, name_text};
use crate::picture::{bar_of, count_of};
use crate::slot_ranges::{Logs, SlotRange, front_of, log_len, range_to};
use crate::texts::{
    TABLES, cause_text, kind_text, on_text, said_of_drive, said_of_nvram, slot_text,
};
use crate::{
    Found, Looked, ObjectSeen, RecordSeen, SegmentSeen, SlotsSeen, TableCounts, There, Unit,
};
use boot_codec::{DRIVE_FLAGS, NVRAM_FLAGS};
use log_codec::LOG_SLOTS;
use pur_base::NoMemory;
use session_spec::{ADDING_GROUPS, CHECKPOINT_GROUPS};
use std::alloc::Global;

/// Whether the array can be opened, and what more may be lost then.
fn put_opening(page: &mut Page, looked: &Looked) {
    match &looked.found {
        Ok(found) => {
            let missing = usize::from(looked.slots).saturating_sub(found.numbers.holding);
            let drives = 2usize.saturating_sub(missing);
            let nvrams = found.numbers.answering.saturating_sub(1);
            page.put_count("the array can be opened: ", drives, " more drive");
            page.put_count(" and ", nvrams, " more NVRAM device");
            page.put(" may be lost\n");
        }
        Err(cause) => {
            page.put_between("the array can't be opened: ", cause_text(cause), "\n");
        }
    }
}

/// The record in force, if there is one.
fn put_record(page: &mut Page, seen: &Option<RecordSeen>) {
    let Some(record) = seen else {
        page.put("record: none\n");
        return;
    };
    page.put_number("record: generation ", record.generation);
    page.put_between(", slot ", slot_text(record.slot), ", on ");
    page.put_numbers(
        "# of the # drives that it names\n",
        &[
            set_flags(&record.holding) as u64,
            set_flags(&record.members.drives) as u64,
        ],
    );
}

/// A line for each drive.
fn put_drives(page: &mut Page, looked: &Looked, there: &There) {
    let count = usize::from(looked.slots).min(DRIVE_FLAGS);
    for slot in 0..count {
        let said = said_of_drive(looked.drives[slot], there.drives[slot]);
        page.put_drive(slot);
        page.put_between(": ", said.line, "\n");
    }
}

/// Adds how many commands a device shows in front of the first slot in which it shows none, if it was read.
fn put_front(page: &mut Page, slots: &Option<SlotsSeen>) {
    if let Some(seen) = slots {
        page.put_count("", front_of(seen), " command");
    }
    page.put("\n");
}

/// A line for each NVRAM device.
fn put_nvrams(page: &mut Page, record: &RecordSeen, logs: &Logs, there: &There) {
    let count = log_len(logs);
    for device in 0..NVRAM_FLAGS {
        let is_named = record.members.nvrams[device];
        let said = said_of_nvram(&logs[device], count, is_named, there.nvrams[device]);
        page.put_number("nvram ", device as u64);
        page.put_between(": ", said.line, "");
        put_front(page, &logs[device]);
    }
}

/// Adds slots that lie one behind another up to a last one, and on which devices.
fn put_range(page: &mut Page, before: &str, range: SlotRange, last: usize) {
    page.put_number(before, range.first as u64);
    if range.first != last {
        page.put_number(" to ", last as u64);
    }
    page.put(on_text(range.on));
}

/// The slots in which commands of the log stand, and on which devices.
fn put_slots(page: &mut Page, logs: &Logs) {
    let mut before = "log slots: ";
    let mut end = "log slots: none\n";
    for last in 0..LOG_SLOTS {
        if let Some(range) = range_to(logs, last) {
            put_range(page, before, range, last);
            before = ", ";
            end = "\n";
        }
    }
    page.put(end);
}

/// What is told of the log, where there is a record.
fn put_log(page: &mut Page, looked: &Looked, there: &There) {
    if let Some(record) = &looked.record {
        put_nvrams(page, record, &looked.logs, there);
        put_slots(page, &looked.logs);
    }
}

/// The units of each drive, and the room for segments.
fn put_picture(page: &mut Page, slots: u8, found: &Found) {
    page.put("units: B boot region, d data, p patches, . free\n");
    for slot in 0..slots {
        let units = found.units.of_drive(slot);
        page.put_drive(usize::from(slot));
        page.put_between(" [", bar_of(units).text(), "] ");
        page.put_numbers("# free\n", &[count_of(units, Unit::Free) as u64]);
    }
    page.put_numbers(
        "room: # more segments; below # commands get `no space`, below # checkpoints do\n",
        &[
            u64::from(found.numbers.groups),
            u64::from(ADDING_GROUPS),
            u64::from(CHECKPOINT_GROUPS),
        ],
    );
}

/// A line for each table.
fn put_tables(page: &mut Page, tables: &[TableCounts; 5]) {
    for i in 0..5 {
        let table = &tables[i];
        page.put_between("table ", TABLES[i], ": ");
        page.put_numbers(
            "# patches in # segments, # facts, # visible\n",
            &[
                table.patches as u64,
                table.segments as u64,
                table.facts,
                table.visible as u64,
            ],
        );
    }
}

/// How many sectors of all segments a visible address names, and how many of the segments have none named, and a quarter more at most, and so on up to all.
fn named_in(segments: &[SegmentSeen]) -> (u64, [u64; 5]) {
    let mut named = 0u64;
    let mut counts = [0u64; 5];
    for segment in segments {
        named = named.saturating_add(u64::from(segment.named));
        let quarters = segment.named.div_ceil(210) as usize;
        if let Some(count) = counts.get_mut(quarters) {
            *count = count.saturating_add(1);
        }
    }
    (named, counts)
}

/// A line for each object.
fn put_objects(page: &mut Page, objects: &[ObjectSeen]) {
    for seen in objects {
        page.put_between(
            kind_text(seen.object.kind),
            " ",
            name_text(&seen.object.name),
        );
        page.put_numbers(
            " #, # stored\n",
            &[u64::from(seen.object.sectors), u64::from(seen.stored)],
        );
    }
}

/// What is told of an array that can be opened: how many commands wait, and what its drives and tables hold.
fn put_found(page: &mut Page, slots: u8, found: &Found) {
    page.put_numbers(
        "log: # create, # write, # fill, # zero, # snapshot, # clone, # copy, # destroy; # free slots\n",
        &[
            found.waiting.creates as u64,
            found.waiting.writes as u64,
            found.waiting.fills as u64,
            found.waiting.zeroes as u64,
            found.waiting.snapshots as u64,
            found.waiting.clones as u64,
            found.waiting.copies as u64,
            found.waiting.destroys as u64,
            found.numbers.free_slots as u64,
        ],
    );
    put_picture(page, slots, found);
    put_tables(page, &found.tables);
    let (named, counts) = named_in(&found.segments);
    page.put_numbers(
        "data segments: #, # sectors placed, # named still\n",
        &[found.numbers.segments as u64, found.numbers.placed, named],
    );
    page.put_numbers(
        "of 840 sectors are named: none in #, 1 to 210 in #, to 420 in #, to 630 in #, to 840 in #\n",
        &counts,
    );
}

fn put_look(page: &mut Page, looked: &Looked, there: &There, objects: bool) {
    put_opening(page, looked);
    page.put_numbers(
        "shelf: # drives of # units\n",
        &[u64::from(looked.slots), u64::from(looked.units)],
    );
    put_record(page, &looked.record);
    put_drives(page, looked, there);
    put_log(page, looked, there);
    if let Ok(found) = &looked.found {
        put_found(page, looked.slots, found);
        if objects {
            put_objects(page, &found.objects);
        }
    }
}

/// A look in words.
pub fn words_of(
    alloc: Global,
    looked: &Looked,
    there: &There,
    objects: bool,
) -> Result<String, NoMemory> {
    let mut page = Page::new(alloc);
    put_look(&mut page, looked, there, objects);
    page.end()
}
