/// The slots of the log on an NVRAM device, and so the most logged commands. The gate of slot i is byte i.
pub const LOG_SLOTS: usize = 64;

/// Where the first slot of the log begins on an NVRAM device.
pub const SLOTS_START: u64 = 4096;

/// The bytes of a slot of the log: a head, and up to 64 sectors.
pub const SLOT_BYTES: u64 = 33_280;
