use pur_base::{Lost, NoMemory};

/// Why a patch is not loaded.
#[derive(Clone, Copy, PartialEq, Eq)]
pub enum PatchFault {
    /// A fact doesn't decode, is of another table than its patch, or stands out of order.
    Bad,
    /// Three of the nine drives of a segment are missing or failed.
    Lost(Lost),
    Memory(NoMemory),
}
