use pur_base::Refusal;

/// What is answered to an item. Sectors stand in the buffer of the engine, and names in its memory.
#[derive(Clone, Copy, PartialEq, Eq, Drop)]
pub enum Said {
    Done,
    /// Something is left to do.
    Left,
    /// There was nothing to do.
    Idle,
    /// So many sectors.
    Data(u8),
    Names,
    /// The numbers of a status.
    Numbers([u64; 10]),
    Refused(Refusal),
}
