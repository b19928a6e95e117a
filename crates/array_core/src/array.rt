// The array's parts.

use array_memory::Memory;
use nvram_log::NvLog;
use register::Register;

/// The most facts of mediums and addresses that steps in the background take in before a checkpoint.
pub const BACKGROUND_FACTS: u32 = command_spec::BACKGROUND_FACTS;

/// The most sectors that they stage before one.
pub const BACKGROUND_STAGED: u16 = 840;

/// Facts and sectors that steps in the background took into memory since the last checkpoint: no entry of the log has them, so they are forgotten where a session stops.
#[derive(Clone, Copy, PartialEq, Eq)]
pub struct Background {
    /// Facts of mediums and of addresses.
    pub facts: u32,
    pub staged: u16,
}

/// Nothing was taken in.
pub const NOTHING_BEHIND: Background = Background {
    facts: 0,
    staged: 0,
};

/// An array that was opened: what it has in memory, its log, the record in force with the drives on which it is, and what of its memory came in without a command.
#[derive(Drop)]
pub struct Array {
    pub memory: Memory,
    pub log: NvLog,
    pub register: Register,
    pub background: Background,
}
