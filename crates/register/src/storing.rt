// The next record is stored.
ghost use Rattle.std.specs.Prelude.{◌≡◌, ◌<◌, ◌-◌, ◌^◌, ℕ, List, OnOk};
ghost use Rattle.pur_base.specs.Devices.{Conditions};
ghost use Rattle.pur_base.specs.Plain.{Array};
ghost use Rattle.boot_codec.specs.declared.record.BootRecord.{BootRecord};
ghost use Rattle.boot_codec.specs.Spelling.{spelling};
ghost use Rattle.world.specs.Losing.{geometry_of};
ghost use Rattle.world.specs.Shelf.{LeavesOnly};
ghost use Rattle.world.specs.Ran.{Ran};
ghost use Rattle.boot_region.specs.Members.{IsMember, IsOneOf, OnSlot};
ghost use Rattle.boot_region.specs.Storing.{Shows, IsFirmOn, IsInStore, IsInForceOn, IsNewer, IsStoredIn, IsStoredOn, MayFollow, StandsAgain};
ghost use Rattle.nvram_log.specs.Members.{IsSome};

use crate::slots::slot_for;
use crate::{Register, StoreFault};
use boot_codec::NVRAM_FLAGS;
use boot_region::TooFew;
use world::Shelf;

impl Register {
    ghost use Rattle.register.specs.Registers.{IsRegisterOf, OnSlots, drives_of, own_slot};
    ghost use Rattle.register.specs.Storing.{DropsOnlyFailed, HasPut, HasStored, HasStoredOnce, LeavesLogged, MayStoreOn};
    ghost use Rattle.register.specs.Standing.{Content, IsFirm, IsInStoreOf, StandsInLog, MayStore, IsOpen};

    /// Stores the record as it is spelled, on the drives that are left. Those on which it fails are dropped.
    pub(crate) fn put<S: Shelf>(&mut self, shelf: &mut S) -> Result<(), StoreFault>
        requires is_of { IsRegisterOf (geometry_of (S.shelf shelf.old)) self.old }
        ensures ran { Ran S.shelf S.shelf_rest (IsOneOf (drives_of self.old)) (OnSlot (drives_of self.old) (own_slot self.old.record)) shelf.old shelf.new }
        ensures left { DropsOnlyFailed (S.shelf shelf.old) (S.shelf shelf.new) self.old self.new }
        ensures made { HasPut result self.old self.new }
        ensures shown { (S.shelf shelf.old).honest → OnOk result ((i : ℕ) → IsMember (drives_of self.new) i → Shows (S.shelf shelf.new) (own_slot self.old.record) self.old.body.items i) }
        ensures moments { (S.shelf shelf.old).honest → LeavesOnly (S.shelf shelf.old) (S.shelf shelf.new) (IsInStore (S.shelf shelf.old) (drives_of self.old) (own_slot self.old.record) self.old.body.items) }
        ensures again { (S.shelf shelf.old).honest → (missing : Conditions) (held boot : BootRecord) (arrays : List Array)
            → self.old.body.items ≡ spelling boot → IsFirmOn (S.shelf shelf.old) (drives_of self.old) missing (own_slot self.old.record) held → MayFollow (S.shelf shelf.old) missing (own_slot self.old.record) boot arrays
            → LeavesOnly (S.shelf shelf.old) (S.shelf shelf.new) (StandsAgain (S.shelf shelf.old) missing arrays) }
        ensures stored { (S.shelf shelf.old).honest → OnOk result ((missing : Conditions) (held boot : BootRecord) (arrays : List Array)
            → self.old.body.items ≡ spelling boot → IsNewer (own_slot self.old.record) held boot → IsInForceOn (S.shelf shelf.old) (drives_of self.old) missing (own_slot self.old.record) held → MayFollow (S.shelf shelf.old) missing (own_slot self.old.record) boot arrays
            → IsStoredIn (S.shelf shelf.old) (S.shelf shelf.new) (drives_of self.old) (drives_of self.new) missing (own_slot self.old.record) held boot arrays) }
        ensures stored_on { (S.shelf shelf.old).honest → OnOk result ((missing : Conditions) (held boot : BootRecord) (arrays : List Array)
            → self.old.body.items ≡ spelling boot → IsNewer (own_slot self.old.record) held boot → IsFirmOn (S.shelf shelf.old) (drives_of self.old) missing (own_slot self.old.record) held → MayFollow (S.shelf shelf.old) missing (own_slot self.old.record) boot arrays
            → IsStoredOn (S.shelf shelf.old) (S.shelf shelf.new) (drives_of self.new) missing (own_slot self.old.record) boot arrays) }
    {
        let slots = self.record.slots as usize;
        let slot = slot_for(self.record.generation);
        let mut drives = self.drives;
        let stored = boot_region::store(shelf, &mut drives[..slots], slot, &self.body);
        self.drives = drives;
        match stored {
            Ok(()) => Ok(()),
            Err(TooFew) => Err(StoreFault::TooFew(drives)),
        }
    }

    /// Stores the next record once. After an error the register holds what it held, or the record that more than two drives would not hold.
    fn store_next<S: Shelf>(
        &mut self,
        nvrams: [bool; NVRAM_FLAGS],
        shelf: &mut S,
    ) -> Result<(), StoreFault>
        requires is_of { IsRegisterOf (geometry_of (S.shelf shelf.old)) self.old }
        requires nvrams { IsSome nvrams }
        ensures ran { Ran S.shelf S.shelf_rest (IsOneOf (drives_of self.old)) (OnSlots (drives_of self.old)) shelf.old shelf.new }
        ensures left { DropsOnlyFailed (S.shelf shelf.old) (S.shelf shelf.new) self.old self.new }
        ensures made { HasStoredOnce result self.old.record nvrams self.old self.new }
        ensures logged { (S.shelf shelf.old).honest → LeavesLogged result (S.shelf shelf.old) (S.shelf shelf.new) self.old self.new nvrams }
        ensures moments { (S.shelf shelf.old).honest → self.new.record.generation < 2 ^ 48 - 8 → LeavesOnly (S.shelf shelf.old) (S.shelf shelf.new) (IsInStoreOf (S.shelf shelf.old) self.old nvrams) }
        // Then it may be stored again.
        ensures again { (S.shelf shelf.old).honest → OnOk result (MayStoreOn (S.shelf shelf.old) (S.shelf shelf.new) self.old self.new nvrams) }
        ensures outlasts { (S.shelf shelf.old).honest → self.new.record.generation < 2 ^ 48 - 8 → (missing : Conditions) (held : Content) (arrays : List Array) → MayStore (S.shelf shelf.old) self.old nvrams missing held arrays
            → IsFirm (S.shelf shelf.old) self.old missing → LeavesOnly (S.shelf shelf.old) (S.shelf shelf.new) (StandsAgain (S.shelf shelf.old) missing arrays) }
    {
        self.advance(nvrams)?;
        self.put(shelf)
    }

    /// Stores the record of the next generation, which names the drives that are left and these NVRAM devices, with all else as it was.
    /// Where a drive fails meanwhile it stores again without it, one generation higher, until the record is on all drives that it names.
    /// Where more than two drives of the shelf would not hold a record, it ends before any gate is opened where that is known by then.
    /// After an error the register holds the record that was tried last, which is to be used no more. It takes no memory.
    pub fn store<S: Shelf>(
        &mut self,
        nvrams: [bool; NVRAM_FLAGS],
        shelf: &mut S,
    ) -> Result<(), StoreFault>
        requires is_of { IsRegisterOf (geometry_of (S.shelf shelf.old)) self.old }
        requires nvrams { IsSome nvrams }
        ensures ran { Ran S.shelf S.shelf_rest (IsOneOf (drives_of self.old)) (OnSlots (drives_of self.old)) shelf.old shelf.new }
        ensures left { DropsOnlyFailed (S.shelf shelf.old) (S.shelf shelf.new) self.old self.new }
        ensures made { HasStored result self.old.record nvrams self.old self.new }
        ensures logged { (S.shelf shelf.old).honest → LeavesLogged result (S.shelf shelf.old) (S.shelf shelf.new) self.old self.new nvrams }
        // At every moment, whatever the conditions of the devices, they stand for the arrays for which they stood, as long as each record that is stored leaves room for later ones.
        // What may be given then is such a record, or one that might have been given before. While the record before isn't superseded it may be given still;
        // then the devices stand for the arrays also where members are back that were missing.
        ensures moments { (S.shelf shelf.old).honest → self.new.record.generation < 2 ^ 48 - 8 → LeavesOnly (S.shelf shelf.old) (S.shelf shelf.new) (IsInStoreOf (S.shelf shelf.old) self.old nvrams) }
        // Whatever fails, more than is borne too: at every moment the devices stand for the arrays once they answer again with what they hold.
        ensures outlasts { (S.shelf shelf.old).honest → self.new.record.generation < 2 ^ 48 - 8 → (missing : Conditions) (held : Content) (arrays : List Array)
            → MayStore (S.shelf shelf.old) self.old nvrams missing held arrays → IsFirm (S.shelf shelf.old) self.old missing
            → LeavesOnly (S.shelf shelf.old) (S.shelf shelf.new) (StandsAgain (S.shelf shelf.old) missing arrays) }
        // Then the record is in force, and the devices stand for the array of the log.
        ensures stored { (S.shelf shelf.old).honest → self.new.record.generation < 2 ^ 48 - 8 → (held : Content) → StandsInLog (S.shelf shelf.old) self.old nvrams held → OnOk result (IsOpen (S.shelf shelf.new) self.new nvrams held) }
    {
        self.store_next(nvrams, shelf)?;
        if self.drives == self.record.members.drives {
            return Ok(());
        }
        self.store(nvrams, shelf)
    }
}
