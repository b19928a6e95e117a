use pur_base::Device;
use world::Span;

/// The counts of a device's failed calls.
#[derive(Clone, Copy, PartialEq, Eq)]
pub struct Faults {
    pub faults: u64,
    pub write_faults: u64,
}

/// What a call on a device did, with what it takes to undo it.
#[derive(Drop)]
pub enum What {
    Read,
    /// The place, and the bytes that stood there.
    Write(usize, Vec<u8>),
    /// The ranges that were dirty.
    Sync(Vec<Span>),
    /// The counts before.
    FailedRead(Faults),
    FailedWrite(Faults),
    FailedSync(Faults),
}

/// A call of the world.
#[derive(Drop)]
pub enum Call {
    On(Device, What),
    /// How many bytes of the input had been taken before.
    Take(usize),
    /// How many bytes had been given before.
    Give(usize),
}
