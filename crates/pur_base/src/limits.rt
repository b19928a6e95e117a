/// The bytes of a sector.
pub const SECTOR_BYTES: usize = 512;

/// The most bytes of a name.
pub const NAME_BYTES: usize = 24;

/// The most digits of a number in a request.
pub const NUMBER_DIGITS: usize = 15;

/// The most bytes of a request's line, its end not counted.
pub const LINE_BYTES: usize = 128;

/// The most sectors that one request reads, writes or fills.
pub const REQUEST_SECTORS: usize = 64;

/// The most volumes and snapshots of an array.
pub const OBJECTS: usize = 1024;

/// The most sectors of a volume or snapshot.
pub const OBJECT_SECTORS: u64 = 1_048_576;

/// The most bytes of input that one session takes.
pub const INPUT_BYTES: u64 = 1 << 40;

/// The bytes of a drive's unit.
pub const UNIT_BYTES: usize = 65_536;

/// The bytes of an NVRAM device.
pub const NVRAM_BYTES: usize = 2_134_016;

/// The NVRAM devices of a shelf.
pub const NVRAM_DEVICES: u8 = 2;

/// The fewest slots of a shelf.
pub const SLOTS_MIN: u8 = 11;

/// The most slots of a shelf.
pub const SLOTS_MAX: u8 = 24;

/// The fewest units of a drive.
pub const UNITS_MIN: u16 = 64;

/// The most units of a drive.
pub const UNITS_MAX: u16 = 4096;

/// The first units of each drive, which are its boot region.
pub const BOOT_UNITS: u16 = 3;

/// The shards of a stripe, and so the units of a segment: seven of data, P and Q.
pub const SEGMENT_SHARDS: usize = 9;

/// The sectors of a segment.
pub const SEGMENT_SECTORS: u16 = 840;

/// The most entries of the index of hints.
pub const INDEX_ENTRIES: usize = 4096;
