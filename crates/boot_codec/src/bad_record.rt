ghost use Rattle.std.specs.Prelude.{◌≡◌};
ghost use Rattle.boot_codec.specs.declared.bad_record.ReadError.TheVariants as errors;

use pur_base::NoMemory;
use std::alloc::{AllocError, AllocFailed};

/// Bytes that are no boot record of the shelf: where the first field that fails begins, and the byte there.
/// Among bytes that have one lawful value each, as `PURARRAY` and the zeros, it is the first wrong byte.
#[derive(Clone, Copy, PartialEq, Eq)]
pub struct BadRecord {
    pub place: usize,
    pub byte: u8,
}

/// Why a boot record could not be read.
#[derive(Clone, Copy, PartialEq, Eq, Drop)]
pub enum ReadError {
    Bad(BadRecord),
    Memory(NoMemory),
}

impl From<AllocError> for ReadError {
    ghost from_gives = { λ _ e. e ≡ errors.Memory (record {}) };

    fn from(_error: AllocError) -> ReadError {
        ReadError::Memory(NoMemory)
    }
}

impl<T: Drop> From<AllocFailed<T>> for ReadError {
    ghost from_gives = { λ _ e. e ≡ errors.Memory (record {}) };

    fn from(_failed: AllocFailed<T>) -> ReadError {
        ReadError::Memory(NoMemory)
    }
}
