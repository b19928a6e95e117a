// Opening the files of a shelf.
ghost use Rattle.std.specs.Prelude.{◌≡◌, ◌<◌, ◌≤◌, length, IfOk, IfSome};

use crate::shape::Shape;
use pur_base::{NVRAM_BYTES, NVRAM_DEVICES, NoMemory, SLOTS_MAX, UNIT_BYTES};
use std::alloc::Global;
use std::fs;
use std::fs::{File, OpenOptions, TryLockError};
use std::io::ErrorKind;
use std::os::unix::fs::FileExt;

/// Why there is no shelf.
#[derive(Clone, Copy, PartialEq, Eq)]
pub enum NoShelf {
    /// `shelf/shelf.txt` can't be opened, locked or read, isn't of its form, or tells a shape out of bounds.
    BadText,
    /// Another program has the shelf open.
    InUse,
    /// No memory was found.
    Memory,
}

impl From<NoMemory> for NoShelf {
    ghost use Rattle.std.specs.Prelude.{◌≡◌};
    ghost use Rattle.world_file.specs.declared.opening.NoShelf.TheVariants.{Memory};

    ghost from_gives = { λ _ e. e ≡ Memory };

    fn from(_error: NoMemory) -> NoShelf {
        NoShelf::Memory
    }
}

const SHAPE: &str = "shelf/shelf.txt";

const DRIVES: [&str; SLOTS_MAX as usize] = [
    "shelf/drive00",
    "shelf/drive01",
    "shelf/drive02",
    "shelf/drive03",
    "shelf/drive04",
    "shelf/drive05",
    "shelf/drive06",
    "shelf/drive07",
    "shelf/drive08",
    "shelf/drive09",
    "shelf/drive10",
    "shelf/drive11",
    "shelf/drive12",
    "shelf/drive13",
    "shelf/drive14",
    "shelf/drive15",
    "shelf/drive16",
    "shelf/drive17",
    "shelf/drive18",
    "shelf/drive19",
    "shelf/drive20",
    "shelf/drive21",
    "shelf/drive22",
    "shelf/drive23",
];

const NVRAM: [&str; NVRAM_DEVICES as usize] = ["shelf/nvram0", "shelf/nvram1"];

// The bytes of a short file. None where it can't be read, or is as long as the buffer.
fn read_short(file: &File, into: &mut [u8; 16]) -> Option<usize>
    ensures { IfSome result (λ n. n < length into.new) }
{
    let mut n = 0;
    for _ in 0..16 {
        if n >= into.len() {
            return None;
        }
        match file.read_at(&mut into[n..], n as u64) {
            Ok(0) => return Some(n),
            Ok(more) => n += more,
            Err(_) => return None,
        }
    }
    None
}

/// Opens `shelf.txt` and takes the lock on it, which keeps every other program off the shelf until the file is closed.
pub(crate) fn open_locked(rt: &HostRuntime) -> Result<File, NoShelf> {
    let Ok(file) = fs::open(rt, SHAPE) else {
        return Err(NoShelf::BadText);
    };
    match file.try_lock() {
        Ok(()) => Ok(file),
        Err(TryLockError::WouldBlock) => Err(NoShelf::InUse),
        Err(TryLockError::Error(error)) if error.kind() == ErrorKind::OutOfMemory => {
            Err(NoShelf::Memory)
        }
        Err(TryLockError::Error(_)) => Err(NoShelf::BadText),
    }
}

/// What `shelf.txt` says.
pub(crate) fn read_shape(file: &File) -> Option<Shape> {
    let mut text = [0; 16];
    let n = read_short(file, &mut text)?;
    Shape::read(&text[..n])
}

// The file, if it is there with that length.
fn open_device(rt: &HostRuntime, path: &str, size: u64) -> Option<File> {
    let mut options = OpenOptions::new();
    options.read(true).write(true);
    let file = options.open(rt, path).ok()?;
    let len = file.metadata().ok()?.len();
    if len == size { Some(file) } else { None }
}

fn open_devices(
    rt: &HostRuntime,
    alloc: Global,
    paths: &[&str],
    size: u64,
) -> Result<Vec<Option<File>>, NoMemory>
    ensures { IfOk result (λ files. length files.items ≡ length paths.now) }
{
    let mut files = Vec::new(alloc);
    for path in paths {
        files.push(open_device(rt, path, size))?;
    }
    Ok(files)
}

/// The files of the drives.
pub(crate) fn open_drives(rt: &HostRuntime, shape: Shape) -> Result<Vec<Option<File>>, NoMemory>
    ensures { IfOk result (λ files. length files.items ≡ shape.slots) }
{
    let size = UNIT_BYTES as u64 * u64::from(shape.units);
    open_devices(rt, rt.alloc(), &DRIVES[..shape.slots as usize], size)
}

/// The files of the NVRAM devices.
pub(crate) fn open_nvram(rt: &HostRuntime) -> Result<Vec<Option<File>>, NoMemory>
    ensures { IfOk result (λ files. length files.items ≡ 2) }
{
    open_devices(rt, rt.alloc(), &NVRAM, NVRAM_BYTES as u64)
}
