// A piece of a drive is written.

use pur_base::{Device, DriveId};
use world::{Failed, Shelf, write_synced};

const DRIVE: Device = Device::Drive(DriveId(0));

static SMALL: [u8; 4096] = [7; 4096];

static LARGE: [u8; 65536] = [7; 65536];

/// Writes and syncs the nth piece, at places of drive 0 in turn.
pub fn write_piece<S: Shelf>(shelf: &mut S, is_small: bool, n: u64) -> Result<(), Failed> {
    if shelf.drives() == 0 || shelf.units() < 64 {
        return Err(Failed);
    }
    if is_small {
        write_synced(shelf, DRIVE, n % 1024 * 4096, &SMALL)
    } else {
        write_synced(shelf, DRIVE, n % 64 * 65536, &LARGE)
    }
}
