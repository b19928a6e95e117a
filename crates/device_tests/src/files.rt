// The world over files: which texts tell the shape of a shelf, and which files serve.
use pur_base::{Device, DriveId, NVRAM_BYTES, NvId, UNIT_BYTES};
use std::fs;
use std::fs::{File, OpenFile};
use world::Shelf;
use world_file::{Files, NoShelf};

const DRIVE_BYTES: u64 = 64 * UNIT_BYTES as u64;

fn make(rt: &HostRuntime, path: &str, bytes: u64) -> bool {
    match File::create(rt, path) {
        Ok(mut file) => file.set_len(bytes).is_ok(),
        Err(_) => false,
    }
}

fn make_shelf(rt: &HostRuntime) -> bool {
    fs::create_dir(rt, "shelf").is_ok()
        && fs::write(rt, "shelf/shelf.txt", "11 64\n").is_ok()
        && make(rt, "shelf/drive00", DRIVE_BYTES)
        && make(rt, "shelf/drive01", 100)
        && make(rt, "shelf/drive02", DRIVE_BYTES + 1)
        && make(rt, "shelf/nvram1", NVRAM_BYTES as u64)
}

fn remove(rt: &HostRuntime, path: &str) -> bool {
    fs::remove_file(rt, path).is_ok()
}

fn remove_shelf(rt: &HostRuntime) -> bool {
    remove(rt, "shelf/shelf.txt")
        && remove(rt, "shelf/drive00")
        && remove(rt, "shelf/drive01")
        && remove(rt, "shelf/drive02")
        && remove(rt, "shelf/nvram1")
        && fs::remove_dir(rt, "shelf").is_ok()
}

// What a write, a sync and a read of the last sector answer, and the counts after them.
fn try_drive(files: &mut Files, drive: u8) -> ([bool; 3], (u64, u64)) {
    if drive >= files.drives() || files.units() < 64 {
        return ([false; 3], (0, 0));
    }
    let device = Device::Drive(DriveId(drive));
    let at = DRIVE_BYTES - 512;
    let wrote = files.write(device, at, &[7; 512]);
    let synced = files.sync(device);
    let mut sector = [0; 512];
    let read = files.read(device, at, &mut sector);
    let same = read.is_ok() && sector == [7; 512];
    let counts = (files.faults(device), files.write_faults(device));
    ([wrote.is_ok(), synced.is_ok(), same], counts)
}

/// Texts, and how many drives and units they tell where they tell a shape.
const SHAPES: [(&str, Option<(u8, u16)>); 20] = [
    ("11 64\n", Some((11, 64))),
    ("24 4096\n", Some((24, 4096))),
    ("15 100\n", Some((15, 100))),
    ("10 64\n", None),
    ("25 64\n", None),
    ("11 63\n", None),
    ("11 4097\n", None),
    ("11 9999\n", None),
    ("11 64", None),
    ("11 64\n\n", None),
    ("011 64\n", None),
    ("11 064\n", None),
    ("11  64\n", None),
    (" 11 64\n", None),
    ("11 64 \n", None),
    ("11\n", None),
    ("11 \n", None),
    ("1a 64\n", None),
    ("\n", None),
    ("", None),
];

/// Whether a shelf whose text that is has so many drives and units, or the text is not of the form.
fn tells(rt: &HostRuntime, text: &str, want: Option<(u8, u16)>) -> bool {
    if fs::write(rt, "shelf/shelf.txt", text).is_err() {
        return false;
    }
    match Files::open(rt) {
        Ok(files) => want == Some((files.drives(), files.units())),
        Err(fault) => want.is_none() && fault == NoShelf::BadText,
    }
}

/// Whether the shelf tells its shape, and no other program may open it at once.
fn is_opened_once(rt: &HostRuntime, files: &Files) -> bool {
    let again = Files::open(rt).err();
    (files.drives(), files.units()) == (11, 64) && again == Some(NoShelf::InUse)
}

/// What calls on drives answer: why one fails, the drive, whether its write, its sync and its read succeed, and the counts of its failed calls.
const ANSWERS: [(&str, u8, bool, (u64, u64)); 4] = [
    ("sound", 0, true, (0, 0)),
    ("short", 1, false, (3, 2)),
    ("long", 2, false, (3, 2)),
    ("absent", 3, false, (3, 2)),
];

/// Whether the NVRAM device that is absent fails, and the other serves.
fn one_nvram_serves(files: &mut Files) -> bool {
    files.sync(Device::Nv(NvId(0))).is_err() && files.sync(Device::Nv(NvId(1))).is_ok()
}

/// Whether calls on the drives answer as they should.
fn drives_answer(files: &mut Files) -> bool {
    for (_what, drive, serves, counts) in &ANSWERS {
        if try_drive(files, *drive) != ([*serves; 3], *counts) {
            return false;
        }
    }
    true
}

/// Whether a shelf is opened once at a time, and of its files those of full length serve alone.
fn opens_and_serves(rt: &HostRuntime) -> bool {
    match Files::open(rt) {
        Ok(mut files) => {
            is_opened_once(rt, &files) && drives_answer(&mut files) && one_nvram_serves(&mut files)
        }
        Err(_) => false,
    }
}

/// Whether no shelf is there, which has no text.
fn is_absent(rt: &HostRuntime) -> bool {
    Files::open(rt).err() == Some(NoShelf::BadText)
}

/// Whether texts of the form alone tell a shape.
fn shapes_are_told(rt: &HostRuntime) -> bool {
    for (text, want) in &SHAPES {
        if !tells(rt, text, *want) {
            return false;
        }
    }
    true
}

// All in one test, since the folder has one name.
#[test]
fn a_shelf_is_opened_once_at_a_time_by_texts_of_the_form_and_files_absent_or_of_another_length_fail(
    rt: HostRuntime,
) {
    assert!(rt;
        is_absent(&rt)
            && make_shelf(&rt)
            && opens_and_serves(&rt)
            && shapes_are_told(&rt)
            && remove_shelf(&rt)
    );
}
