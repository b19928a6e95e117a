// The log in memory.
ghost use Rattle.std.specs.Prelude.{◌≡◌, ◌≤◌, ◌<◌, ◌+◌, ◌^◌, length};
ghost use Rattle.log_codec.specs.declared.limits.TheConstants.{LOG_SLOTS, SLOT_BYTES};

use crate::Logged;
use crate::seen::SeenSlots;
use log_codec::{LOG_SLOTS, SLOT_BYTES};
use pur_base::NVRAM_DEVICES;

pub const DEVICES: usize = NVRAM_DEVICES as usize;

/// The bytes of a slot.
pub const SLOT: usize = SLOT_BYTES as usize;

/// The log: which devices hold it, and how many commands it has there.
#[derive(Drop)]
pub struct NvLog {
    pub(crate) members: [bool; DEVICES],
    /// The number of the last command before the log.
    pub(crate) flushed: u64,
    /// How many commands the log holds.
    pub(crate) count: usize,
    /// The commands that were read. It is kept for `record_at` and `settle`: those that are appended later don't stand here.
    pub(crate) records: Vec<Logged>,
    /// Room for a slot, in which a record is put together.
    pub(crate) slot: Vec<u8>,
    /// What each member showed when the log was read.
    pub(crate) seen: [SeenSlots; DEVICES],
    ghost room: { count ≤ LOG_SLOTS },
    ghost numbers: { flushed + count < 2 ^ 64 },
    ghost slot_size: { length slot.items ≡ SLOT_BYTES },
}

/// No NVRAM device is left.
#[derive(Clone, Copy, PartialEq, Eq)]
pub struct BothLost;

impl NvLog {
    /// Which devices hold the log.
    pub fn members(&self) -> [bool; DEVICES]
        ensures { result ≡ self.now.members }
    {
        self.members
    }

    /// The number of the last command before the log.
    pub fn flushed(&self) -> u64
        ensures { result ≡ self.now.flushed }
    {
        self.flushed
    }

    /// How many commands the log holds.
    pub fn count(&self) -> usize
        ensures { result ≡ self.now.count }
    {
        self.count
    }

    /// How many more it has room for.
    pub fn free_slots(&self) -> usize
        ensures { result + self.now.count ≡ LOG_SLOTS }
    {
        LOG_SLOTS - self.count
    }
}
