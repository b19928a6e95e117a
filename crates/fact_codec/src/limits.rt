/// The bytes of a fact.
pub const FACT_BYTES: usize = 64;

/// The first bytes of a fact: the fields that facts of all tables have.
pub const HEAD_BYTES: usize = 32;

/// The last bytes of a fact: what it says of its key.
pub const VALUE_BYTES: usize = 32;

/// The facts of a page, which is a sector.
pub const PAGE_FACTS: usize = 8;

/// What ids and sequence numbers stay below, from 1 on.
pub const NUMBER_LIMIT: u64 = 1 << 48;
