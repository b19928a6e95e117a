// The slots of the log, as both NVRAM devices show them.
use crate::SlotsSeen;
use boot_codec::NVRAM_FLAGS;
use log_codec::LOG_SLOTS;

/// What each NVRAM device shows, where it was read.
pub type Logs = [Option<SlotsSeen>; NVRAM_FLAGS];

/// Slots one behind another in which the same devices show commands, up to one that is known.
#[derive(Clone, Copy)]
pub struct SlotRange {
    pub first: usize,
    pub on: [bool; NVRAM_FLAGS],
}

/// Whether a device shows a command in a slot.
fn is_on(slots: &Option<SlotsSeen>, slot: usize) -> bool {
    match slots {
        Some(seen) if slot < LOG_SLOTS => seen.shown[slot],
        _ => false,
    }
}

/// Whether these devices and no others show a command in a slot.
fn is_on_those(logs: &Logs, on: [bool; NVRAM_FLAGS], slot: usize) -> bool {
    is_on(&logs[0], slot) == on[0] && is_on(&logs[1], slot) == on[1]
}

/// How many commands a device shows in front of the first slot in which it shows none.
pub fn front_of(slots: &SlotsSeen) -> usize {
    for slot in 0..LOG_SLOTS {
        if !slots.shown[slot] {
            return slot;
        }
    }
    LOG_SLOTS
}

/// How many commands the log has: those in front of the first slot in which no device shows one.
pub fn log_len(logs: &Logs) -> usize {
    for slot in 0..LOG_SLOTS {
        if is_on_those(logs, [false, false], slot) {
            return slot;
        }
    }
    LOG_SLOTS
}

/// The range of which a slot is the last, if some device shows a command in it and others show one in the slot behind it.
pub fn range_to(logs: &Logs, last: usize) -> Option<SlotRange> {
    let on = [is_on(&logs[0], last), is_on(&logs[1], last)];
    let is_none = !on[0] && !on[1];
    if is_none || is_on_those(logs, on, last.saturating_add(1)) {
        return None;
    }
    let mut first = last;
    for slot in 0..last {
        if !is_on_those(logs, on, slot) {
            first = last;
        } else if first == last {
            first = slot;
        }
    }
    Some(SlotRange { first, on })
}
