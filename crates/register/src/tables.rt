// A record with other tables is stored.
ghost use Rattle.std.specs.Prelude.{◌≡◌, ◌<◌, ◌≤◌, ◌+◌, ◌-◌, ◌^◌, ℕ, OnOk, OnErr, IfErr, ◌∷◌, []};
ghost use Rattle.boot_codec.specs.Record.{IsBootRecord, set_count};
ghost use Rattle.boot_codec.specs.Spelling.{spelling};
ghost use Rattle.world.specs.Losing.{geometry_of};
ghost use Rattle.world.specs.Shelf.{LeavesOnly};
ghost use Rattle.world.specs.Ran.{Ran};
ghost use Rattle.boot_region.specs.Members.{IsMember, IsOneOf};
ghost use Rattle.boot_region.specs.Storing.{StandsAgain};
ghost use Rattle.nvram_log.specs.Members.{IsSome};

use crate::{Register, StoreFault};
use boot_codec::{NextNumbers, Patches};
use world::Shelf;

/// What a record says of the tables: their patches, the numbers that are given next, and the number of the last logged command that the patches hold.
#[derive(Drop)]
pub struct Tables {
    pub patches: Patches,
    pub next: NextNumbers,
    pub flushed: u64,
}

impl Register {
    ghost use Rattle.register.specs.Faults.{IsFaultOf};
    ghost use Rattle.register.specs.Registers.{IsRegisterOf, OnSlots, drives_of, next_record};
    ghost use Rattle.array_spec.specs.Held.{named_sound};
    ghost use Rattle.register.specs.Storing.{DropsOnlyFailed, HasStored, HasStoredOnce, MayStoreOnWith};
    ghost use Rattle.register.specs.Standing.{Content, IsOpen, array_of};
    ghost use Rattle.register.specs.Giving.{GivesOldOrTables};
    ghost use Rattle.register.specs.Tables.{IsPlanOf, StandsAsBefore, with_tables};

    /// Makes and spells the next record with these tables. An error leaves all as it was.
    fn advance_to(&mut self, tables: Tables) -> Result<(), StoreFault>
        requires lawful { IsBootRecord (with_tables self.old.record tables) }
        requires named { (i : ℕ) → IsMember self.old.drives i → IsMember self.old.record.members.drives i }
        requires nvrams { IsSome self.old.record.members.nvrams }
        ensures ok { OnOk result (self.new.record ≡ next_record (with_tables self.old.record tables) self.old.drives self.old.record.members.nvrams) }
        ensures lawful { OnOk result (IsBootRecord self.new.record) }
        ensures body { OnOk result (self.new.body.items ≡ spelling self.new.record) }
        ensures drives { self.new.drives ≡ self.old.drives }
        ensures enough { OnOk result (self.old.record.slots ≤ set_count self.old.drives + 2) }
        ensures err { OnErr result (self.new ≡ self.old) }
        ensures fault { IfErr result (λ e. IsFaultOf self.old e) }
    {
        self.check_next()?;
        let nvrams = self.record.members.nvrams;
        self.record.patches = tables.patches;
        self.record.next = tables.next;
        self.record.flushed = tables.flushed;
        self.write_next(nvrams);
        Ok(())
    }

    /// Stores the next record with these tables once. An error before the record is made leaves all as it was.
    fn store_first<S: Shelf>(&mut self, tables: Tables, shelf: &mut S) -> Result<(), StoreFault>
        requires is_of { IsRegisterOf (geometry_of (S.shelf shelf.old)) self.old }
        requires lawful { IsBootRecord (with_tables self.old.record tables) }
        ensures ran { Ran S.shelf S.shelf_rest (IsOneOf (drives_of self.old)) (OnSlots (drives_of self.old)) shelf.old shelf.new }
        ensures left { DropsOnlyFailed (S.shelf shelf.old) (S.shelf shelf.new) self.old self.new }
        ensures made { HasStoredOnce result (with_tables self.old.record tables) self.old.record.members.nvrams self.old self.new }
        ensures any_moment { (S.shelf shelf.old).honest → self.new.record.generation < 2 ^ 48 - 8 → (held next : Content) → IsOpen (S.shelf shelf.old) self.old self.old.record.members.nvrams held
            → IsPlanOf (S.shelf shelf.old) self.old tables held next → LeavesOnly (S.shelf shelf.old) (S.shelf shelf.new) (StandsAsBefore (S.shelf shelf.old) self.old held) }
        ensures gives { (S.shelf shelf.old).honest → self.new.record.generation < 2 ^ 48 - 8 → (held next : Content) → IsOpen (S.shelf shelf.old) self.old self.old.record.members.nvrams held
            → IsPlanOf (S.shelf shelf.old) self.old tables held next → LeavesOnly (S.shelf shelf.old) (S.shelf shelf.new) (GivesOldOrTables (S.shelf shelf.old) self.old tables) }
        // Then it may be stored again.
        ensures again { (S.shelf shelf.old).honest → OnOk result (MayStoreOnWith (S.shelf shelf.old) (S.shelf shelf.new) self.old self.new tables) }
        ensures outlasts { (S.shelf shelf.old).honest → self.new.record.generation < 2 ^ 48 - 8 → (held next : Content) → IsOpen (S.shelf shelf.old) self.old self.old.record.members.nvrams held
            → IsPlanOf (S.shelf shelf.old) self.old tables held next
            → LeavesOnly (S.shelf shelf.old) (S.shelf shelf.new) (StandsAgain (S.shelf shelf.old) (named_sound self.old.record) (array_of held ∷ [])) }
    {
        self.advance_to(tables)?;
        self.put(shelf)
    }

    /// Stores the record of the next generation with these tables, which names the drives that are left and the same NVRAM devices.
    /// Where a drive fails meanwhile it stores again without it, one generation higher, until the record is on all drives that it names.
    /// Where more than two drives of the shelf would not hold a record, it ends before any gate is opened where that is known by then.
    /// Before the first record is made an error changes nothing; after a later one the register holds the record that was tried last, which is to be used no more.
    /// It takes no memory.
    pub fn store_tables<S: Shelf>(
        &mut self,
        tables: Tables,
        shelf: &mut S,
    ) -> Result<(), StoreFault>
        requires is_of { IsRegisterOf (geometry_of (S.shelf shelf.old)) self.old }
        requires lawful { IsBootRecord (with_tables self.old.record tables) }
        ensures ran { Ran S.shelf S.shelf_rest (IsOneOf (drives_of self.old)) (OnSlots (drives_of self.old)) shelf.old shelf.new }
        ensures left { DropsOnlyFailed (S.shelf shelf.old) (S.shelf shelf.new) self.old self.new }
        ensures made { HasStored result (with_tables self.old.record tables) self.old.record.members.nvrams self.old self.new }
        // At every moment the devices stand for the array for which they stood.
        ensures any_moment { (S.shelf shelf.old).honest → self.new.record.generation < 2 ^ 48 - 8 → (held next : Content) → IsOpen (S.shelf shelf.old) self.old self.old.record.members.nvrams held
            → IsPlanOf (S.shelf shelf.old) self.old tables held next
            → LeavesOnly (S.shelf shelf.old) (S.shelf shelf.new) (StandsAsBefore (S.shelf shelf.old) self.old held) }
        // What may be given then is the record before, or one of these tables.
        ensures gives { (S.shelf shelf.old).honest → self.new.record.generation < 2 ^ 48 - 8 → (held next : Content) → IsOpen (S.shelf shelf.old) self.old self.old.record.members.nvrams held
            → IsPlanOf (S.shelf shelf.old) self.old tables held next
            → LeavesOnly (S.shelf shelf.old) (S.shelf shelf.new) (GivesOldOrTables (S.shelf shelf.old) self.old tables) }
        // Whatever fails, more than is borne too: at every moment the devices stand for the array once they answer again with what they hold.
        ensures outlasts { (S.shelf shelf.old).honest → self.new.record.generation < 2 ^ 48 - 8 → (held next : Content) → IsOpen (S.shelf shelf.old) self.old self.old.record.members.nvrams held
            → IsPlanOf (S.shelf shelf.old) self.old tables held next
            → LeavesOnly (S.shelf shelf.old) (S.shelf shelf.new) (StandsAgain (S.shelf shelf.old) (named_sound self.old.record) (array_of held ∷ [])) }
        // Then the record is in force, and the devices stand for the array by its tables.
        ensures held { (S.shelf shelf.old).honest → self.new.record.generation < 2 ^ 48 - 8 → (held next : Content) → IsOpen (S.shelf shelf.old) self.old self.old.record.members.nvrams held
            → IsPlanOf (S.shelf shelf.old) self.old tables held next → OnOk result (IsOpen (S.shelf shelf.new) self.new self.old.record.members.nvrams next) }
    {
        let nvrams = self.record.members.nvrams;
        self.store_first(tables, shelf)?;
        if self.drives == self.record.members.drives {
            return Ok(());
        }
        self.store(nvrams, shelf)
    }
}
