use pur_base::SEGMENT_SHARDS;

/// The bytes of a boot record.
pub const RECORD_BYTES: usize = 65_536;

/// The bytes of a boot record before its patches.
pub const HEADER_BYTES: usize = 88;

/// The format that this crate writes and reads.
pub const FORMAT: u32 = 1;

/// The flags of a record's member drives, one a slot of the largest shelf.
pub const DRIVE_FLAGS: usize = 24;

/// The flags of a record's member NVRAM devices.
pub const NVRAM_FLAGS: usize = 2;

/// The fewest member drives of a record.
pub const MEMBER_DRIVES_MIN: usize = 9;

/// The fewest member NVRAM devices of a record.
pub const MEMBER_NVRAMS_MIN: usize = 1;

/// No generation, next number or sequence number reaches this.
pub const NUMBER_LIMIT: u64 = 1 << 48;

/// The greatest tag of a patch. The least is 1.
pub const TAG_MAX: u8 = 5;

/// The most patches of a record.
pub const PATCHES: u16 = 600;

/// The most segments of all patches of a record.
pub const PATCH_SEGMENTS: u16 = 600;

/// The facts that one segment of a patch holds.
pub const FACTS_PER_SEGMENT: u32 = 6720;

/// The bytes of a place in a record.
pub const PLACE_BYTES: usize = 3;

/// The bytes of a segment's places in a record.
pub const PLACES_BYTES: usize = SEGMENT_SHARDS * PLACE_BYTES;

/// The bytes of a segment in a record: its id and its places.
pub const SEGMENT_BYTES: usize = 8 + PLACES_BYTES;
