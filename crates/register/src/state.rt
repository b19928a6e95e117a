// The record in force.
ghost use Rattle.std.specs.Prelude.{◌≡◌, ◌<◌, ◌&&◌, ◌↔◌, ℕ, IfOk, ◌≢◌, length, not, slice_index_or, true, false};
ghost use Rattle.pur_base.specs.Devices.{Geometry};
ghost use Rattle.boot_codec.specs.declared.limits.TheConstants.{DRIVE_FLAGS, RECORD_BYTES};
ghost use Rattle.boot_region.specs.Members.{IsMember};

use boot_codec::{BootRecord, DRIVE_FLAGS, RECORD_BYTES};
use pur_base::NoMemory;
use std::alloc::Global;

/// The record in force, and the drives on which it is.
#[derive(Drop)]
pub struct Register {
    /// The record that was loaded and settled, or stored last.
    pub(crate) record: BootRecord,
    /// Of the drives that it names, those on which it is in force.
    pub(crate) drives: [bool; DRIVE_FLAGS],
    /// Room for a record as it is spelled.
    pub(crate) body: Vec<u8>,
    ghost room: { length body.items ≡ RECORD_BYTES },
}

/// The drives that are left without those that are lost.
fn left_of(drives: &[bool; DRIVE_FLAGS], lost: &[bool; DRIVE_FLAGS]) -> [bool; DRIVE_FLAGS]
    ensures { (slot : ℕ) → slot < DRIVE_FLAGS → slice_index_or result slot false ≡ (slice_index_or drives.now slot false && not (slice_index_or lost.now slot false)) }
{
    let mut left = *drives;
    for slot in 0..DRIVE_FLAGS {
        if lost[slot] {
            left[slot] = false;
        }
    }
    left
}

impl Register {
    ghost use Rattle.register.specs.Registers.{IsRegisterOf};

    /// Of a record that was loaded, and the drives that its settling left. It takes all memory that a store needs, and fails for want of memory only.
    pub fn new(
        alloc: Global,
        found: BootRecord,
        drives: [bool; DRIVE_FLAGS],
    ) -> Result<Register, NoMemory>
        ensures { IfOk result (λ r. (r.record ≡ found) × (r.drives ≡ drives)) }
    {
        let body = vec![in alloc; 0; RECORD_BYTES]?;
        Ok(Register {
            record: found,
            drives,
            body,
        })
    }

    /// The record that was loaded, or stored last.
    pub fn record(&self) -> &BootRecord
        ensures { result.now ≡ self.now.record }
    {
        &self.record
    }

    /// Of the drives that the record names, those on which it is in force.
    pub fn drives(&self) -> &[bool; DRIVE_FLAGS]
        ensures { result.now ≡ self.now.drives }
    {
        &self.drives
    }
    /// Takes these drives as lost, as where writes on them failed: until the next store the record is in force on the others alone.
    /// Tells whether it was on any of them.
    pub fn lose(&mut self, lost: &[bool; DRIVE_FLAGS]) -> bool
        ensures record { self.new.record ≡ self.old.record }
        ensures left { (i : ℕ) → IsMember self.new.drives i ↔ (IsMember self.old.drives i × ¬ (IsMember lost.now i)) }
        ensures none { result ≡ false → self.new ≡ self.old }
        ensures some { result ≡ true → self.new.drives ≢ self.old.drives }
        ensures kept { (shelf : Geometry) → IsRegisterOf shelf self.old → IsRegisterOf shelf self.new }
    {
        let left = left_of(&self.drives, lost);
        if left == self.drives {
            return false;
        }
        self.drives = left;
        true
    }
}
