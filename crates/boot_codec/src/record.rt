use crate::limits::{DRIVE_FLAGS, NVRAM_FLAGS};
use crate::patch::Patches;

/// The devices that hold the array: a flag for each slot, and one for each NVRAM device.
#[derive(Clone, Copy, PartialEq, Eq, Drop)]
pub struct Members {
    pub drives: [bool; DRIVE_FLAGS],
    pub nvrams: [bool; NVRAM_FLAGS],
}

/// The numbers that are given next, each from 1 up to below 2^48.
#[derive(Clone, Copy, PartialEq, Eq, Drop)]
pub struct NextNumbers {
    pub object: u64,
    pub medium: u64,
    pub segment: u64,
    pub patch_segment: u64,
    pub sequence: u64,
}

/// A boot record: what a controller must know before it reads anything else.
#[derive(Drop)]
pub struct BootRecord {
    /// The slots of the shelf, 11 to 24.
    pub slots: u8,
    /// The units of each drive, 64 to 4,096.
    pub units: u16,
    /// From 1 up to below 2^48.
    pub generation: u64,
    pub members: Members,
    pub next: NextNumbers,
    /// The number of the last logged command that the patches hold, below 2^48.
    pub flushed: u64,
    pub patches: Patches,
}
