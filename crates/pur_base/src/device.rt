/// A drive of a shelf, by its slot.
#[derive(Clone, Copy, PartialEq, Eq)]
pub struct DriveId(pub u8);

/// An NVRAM device of a shelf, by its number.
#[derive(Clone, Copy, PartialEq, Eq)]
pub struct NvId(pub u8);

/// A device of a shelf.
#[derive(Clone, Copy, PartialEq, Eq)]
pub enum Device {
    Drive(DriveId),
    Nv(NvId),
}
