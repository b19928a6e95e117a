// The next record.
ghost use Rattle.std.specs.Prelude.{◌≡◌, ◌+◌, ◌<◌, ◌≤◌, ◌^◌, ℕ, OnOk, OnErr, IfErr};
ghost use Rattle.boot_codec.specs.Record.{IsBootRecord, set_count};
ghost use Rattle.boot_codec.specs.Spelling.{spelling};
ghost use Rattle.nvram_log.specs.Members.{IsSome};

use crate::Register;
use crate::counting::count_set;
use boot_codec::{DRIVE_FLAGS, Members, NUMBER_LIMIT, NVRAM_FLAGS, write_record};

/// As many drives may be missing.
const MISSING_MAX: usize = 2;

/// Why no record was stored.
#[derive(Clone, Copy, PartialEq, Eq, Drop)]
pub enum StoreFault {
    /// The next generation would be 2^48, which no record can hold.
    Spent,
    /// More than two drives of the shelf are missing from these.
    TooFew([bool; DRIVE_FLAGS]),
}

impl Register {
    ghost use Rattle.register.specs.Faults.{IsFaultOf};
    ghost use Rattle.register.specs.Registers.{next_record};
    ghost use Rattle.boot_region.specs.Members.{IsMember};

    /// Whether a next record can be made of the drives that are left.
    pub(crate) fn check_next(&self) -> Result<(), StoreFault>
        ensures ok { OnOk result ((self.now.record.slots ≤ set_count self.now.drives + 2) × (self.now.record.generation + 1 < 2 ^ 48)) }
        ensures fault { IfErr result (λ e. IsFaultOf self.now e) }
    {
        if count_set(&self.drives) + MISSING_MAX < self.record.slots as usize {
            return Err(StoreFault::TooFew(self.drives));
        }
        if self.record.generation >= NUMBER_LIMIT - 1 {
            return Err(StoreFault::Spent);
        }
        Ok(())
    }

    /// Makes and spells the next record, which names the drives that are left and these NVRAM devices.
    pub(crate) fn write_next(&mut self, nvrams: [bool; NVRAM_FLAGS])
        requires lawful { IsBootRecord self.old.record }
        requires named { (i : ℕ) → IsMember self.old.drives i → IsMember self.old.record.members.drives i }
        requires nvrams { IsSome nvrams }
        requires enough { self.old.record.slots ≤ set_count self.old.drives + 2 }
        requires low { self.old.record.generation + 1 < 2 ^ 48 }
        ensures next { self.new.record ≡ next_record self.old.record self.old.drives nvrams }
        ensures lawful { IsBootRecord self.new.record }
        ensures body { self.new.body.items ≡ spelling self.new.record }
        ensures drives { self.new.drives ≡ self.old.drives }
    {
        let generation = self.record.generation + 1;
        self.record.generation = generation;
        self.record.members = Members {
            drives: self.drives,
            nvrams,
        };
        write_record(&self.record, &mut self.body);
    }

    /// Makes and spells the next record, which names the drives that are left and these NVRAM devices. An error leaves all as it was.
    pub(crate) fn advance(&mut self, nvrams: [bool; NVRAM_FLAGS]) -> Result<(), StoreFault>
        requires lawful { IsBootRecord self.old.record }
        requires named { (i : ℕ) → IsMember self.old.drives i → IsMember self.old.record.members.drives i }
        requires nvrams { IsSome nvrams }
        ensures ok { OnOk result (self.new.record ≡ next_record self.old.record self.old.drives nvrams) }
        ensures lawful { OnOk result (IsBootRecord self.new.record) }
        ensures body { OnOk result (self.new.body.items ≡ spelling self.new.record) }
        ensures drives { self.new.drives ≡ self.old.drives }
        ensures enough { OnOk result (self.old.record.slots ≤ set_count self.old.drives + 2) }
        ensures err { OnErr result (self.new ≡ self.old) }
        ensures fault { IfErr result (λ e. IsFaultOf self.old e) }
    {
        self.check_next()?;
        self.write_next(nvrams);
        Ok(())
    }
}
