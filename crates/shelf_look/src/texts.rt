// What things are called, in lines and in JSON.
use crate::slot_ranges::front_of;
use crate::{Cause, DriveState, SlotsSeen};
use boot_codec::NVRAM_FLAGS;
use boot_region::{LoadFault, Slot};
use pur_base::{ObjectKind, Table};
use table_loading::TablesFault;

/// The tables, as requests name them.
pub const TABLES: [&str; 5] = ["object", "medium", "address", "segment", "elision"];

/// What is said of a device: in its line, and as a word of JSON.
#[derive(Clone, Copy)]
pub struct Said {
    pub line: &'static str,
    pub word: &'static str,
}

const HOLDS: Said = Said {
    line: "holds the record",
    word: "holding",
};

const OTHER: Said = Said {
    line: "shows another record, or none",
    word: "other",
};

const HOLDS_LOG: Said = Said {
    line: "holds the log, ",
    word: "holding",
};

const OTHER_LOG: Said = Said {
    line: "shows another log, ",
    word: "other",
};

const LEFT_OUT: Said = Said {
    line: "is left out",
    word: "left out",
};

const FAILED: Said = Said {
    line: "a read of it failed",
    word: "failed",
};

const ABSENT: Said = Said {
    line: "is absent, or of another length",
    word: "absent",
};

/// What is said of a drive that is there or isn't.
pub fn said_of_drive(state: DriveState, is_there: bool) -> &'static Said {
    match state {
        DriveState::Holding => &HOLDS,
        DriveState::Other => &OTHER,
        DriveState::LeftOut => &LEFT_OUT,
        DriveState::Silent if is_there => &FAILED,
        DriveState::Silent => &ABSENT,
    }
}

/// What is said of an NVRAM device that shows this of a log of so many commands, that the record names or doesn't, and that is there or isn't.
pub fn said_of_nvram(
    slots: &Option<SlotsSeen>,
    count: usize,
    is_named: bool,
    is_there: bool,
) -> &'static Said {
    match slots {
        Some(seen) => if front_of(seen) == count {
            &HOLDS_LOG
        } else {
            &OTHER_LOG
        },
        None if !is_there => &ABSENT,
        None => if is_named { &FAILED } else { &LEFT_OUT },
    }
}

/// On which NVRAM devices slots show commands.
pub fn on_text(on: [bool; NVRAM_FLAGS]) -> &'static str {
    match on {
        [true, true] => " on both",
        [true, false] => " on nvram 0 alone",
        _ => " on nvram 1 alone",
    }
}

pub fn slot_text(slot: Slot) -> &'static str {
    match slot {
        Slot::A => "A",
        Slot::B => "B",
    }
}

pub fn kind_text(kind: ObjectKind) -> &'static str {
    match kind {
        ObjectKind::Volume => "volume",
        ObjectKind::Snapshot => "snapshot",
    }
}

/// In which table a patch is bad.
fn damage_text(table: Table) -> &'static str {
    match table {
        Table::Object => "a patch of the table object is damaged",
        Table::Medium => "a patch of the table medium is damaged",
        Table::Address => "a patch of the table address is damaged",
        Table::Segment => "a patch of the table segment is damaged",
        Table::Elision => "a patch of the table elision is damaged",
    }
}

/// Why the record or the tables can't be used, and so the array not be opened.
pub fn cause_text(cause: &Cause) -> &'static str {
    match cause {
        Cause::Record(LoadFault::NoArray) => {
            "no record is shown by more than half of the drives"
        }
        Cause::Record(LoadFault::BadRecord(_)) => {
            "the record in force is no record of this shelf"
        }
        Cause::Record(LoadFault::Spent) => {
            "the generation of the record leaves no room for later ones"
        }
        Cause::Record(LoadFault::TooFew(_)) => "more than two drives don't hold the record",
        Cause::Tables(TablesFault::BadPatch(table)) => damage_text(*table),
        Cause::Tables(TablesFault::Unsound(_)) => "the tables contradict each other",
        Cause::Tables(TablesFault::Lost(_)) => {
            "three of the nine drives of a segment of the tables don't answer"
        }
        Cause::BothLost => "no NVRAM device that the record names answers",
        _ => "memory",
    }
}
