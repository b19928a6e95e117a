// Which devices are there.
use pur_base::{NVRAM_BYTES, NVRAM_DEVICES, NoMemory, SLOTS_MAX, UNIT_BYTES};
use shelf_look::There;
use std::fs;
use world::Shelf;
use world_file::Files;

/// The files of the NVRAM devices.
const NVRAM: [&str; NVRAM_DEVICES as usize] = ["shelf/nvram0", "shelf/nvram1"];

/// Whether a file is there with this length.
fn is_there(rt: &HostRuntime, path: &str, size: u64) -> bool {
    match fs::metadata(rt, path) {
        Ok(metadata) => metadata.len() == size,
        Err(_) => false,
    }
}

/// Which devices are there with the length that those of the shelf have.
pub fn devices_there(rt: &HostRuntime, files: &Files) -> Result<There, NoMemory> {
    let alloc = rt.alloc();
    let size = UNIT_BYTES as u64 * u64::from(files.units());
    let mut there = There::ALL;
    for slot in 0..SLOTS_MAX as usize {
        let path = format!(in alloc; "shelf/drive{slot:02}")?;
        there.drives[slot] = is_there(rt, &path, size);
    }
    for device in 0..NVRAM.len() {
        there.nvrams[device] = is_there(rt, NVRAM[device], NVRAM_BYTES as u64);
    }
    Ok(there)
}
