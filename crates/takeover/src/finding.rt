// The boot record is found and settled.
ghost use Rattle.std.specs.Prelude.{◌≡◌, ◌⊎◌, ◌<◌, ◌≤◌, ℕ, List, [], IfOk};
ghost use Rattle.pur_base.specs.declared.device.Device.{Device};
ghost use Rattle.pur_base.specs.Devices.{Conditions, IsBearable, IsWithin, drive};
ghost use Rattle.pur_base.specs.Plain.{Array};
ghost use Rattle.boot_codec.specs.Record.{set_count};
ghost use Rattle.boot_codec.specs.Region.{gate_place, other_slot};
ghost use Rattle.array_spec.specs.Standing.{Stands};
ghost use Rattle.world.specs.Counts.{Rises};
ghost use Rattle.world.specs.Losing.{geometry_of};
ghost use Rattle.world.specs.Shelf.{LeavesOnly};
ghost use Rattle.world.specs.Ran.{Ran};
ghost use Rattle.boot_region.specs.Members.{IsDrive, IsMember, IsOneOf, OnClosed, Opened};
ghost use Rattle.boot_region.specs.Slots.{slot_in};
ghost use Rattle.boot_region.specs.Storing.{IsFound, IsInForceOn, IsLoaded, TellsFailed};
ghost use Rattle.session_spec.specs.Entering.{Enters, failed_since};
ghost use Rattle.takeover.specs.Found.{IsFoundBy, OnGates};
ghost use Rattle.takeover.specs.Seen.{IsSeenBy};
ghost use Rattle.takeover.specs.Steps.{IsRecordFound, StandsWhileFinding};

use crate::OpenFault;
use boot_codec::DRIVE_FLAGS;
use boot_region::{Loaded, load, settle};
use std::alloc::Global;
use world::Shelf;

/// As many drives may be missing.
const MISSING_MAX: usize = 2;

/// How many flags are set.
fn count_set(flags: &[bool; DRIVE_FLAGS]) -> usize
    ensures value { result ≡ set_count flags.now }
    ensures bound { result ≤ 24 }
{
    flags.iter().filter(|flag| **flag).count()
}

/// Settles the record that was loaded on the drives that hold it. A drive that fails is dropped.
fn settle_loaded<S: Shelf>(shelf: &mut S, loaded: &mut Loaded)
    ensures ran { Ran S.shelf S.shelf_rest (IsOneOf loaded.old.drives) (OnClosed loaded.old.drives (S.shelf shelf.old) (gate_place (slot_in loaded.old.slot))) shelf.old shelf.new }
    ensures record { (loaded.new.record ≡ loaded.old.record) × (loaded.new.slot ≡ loaded.old.slot) }
    ensures fewer { (i : ℕ) → IsMember loaded.new.drives i → IsMember loaded.old.drives i }
    // On those that are left no write or sync failed, their gates are open, and what was clean is clean still.
    ensures outcome { (i : ℕ) → i < (S.shelf shelf.old).drives
        → Opened (S.shelf shelf.old).honest (IsMember loaded.old.drives i) (IsMember loaded.new.drives i) (gate_place (slot_in loaded.old.slot)) ((S.shelf shelf.old).disk (drive i)) ((S.shelf shelf.new).disk (drive i)) }
    // What was clean is clean still, or a call on it failed.
    ensures clean { (S.shelf shelf.old).honest → (d : Device) → ((S.shelf shelf.old).disk d).dirty ≡ []
        → (((S.shelf shelf.new).disk d).dirty ≡ []) ⊎ Rises ((S.shelf shelf.old).disk d).faults ((S.shelf shelf.new).disk d).faults }
    // At every moment the devices stand for the arrays for which they stood.
    ensures any_moment { (S.shelf shelf.old).honest → (missing : Conditions) (arrays : List Array)
        → IsLoaded (S.shelf shelf.old) loaded.old.drives missing (slot_in loaded.old.slot) loaded.old.record arrays
        → LeavesOnly (S.shelf shelf.old) (S.shelf shelf.new) (λ stop. Stands (geometry_of (S.shelf shelf.old)) stop.image missing arrays) }
    // Then the record is in force on the drives that are left.
    ensures settled { (S.shelf shelf.old).honest → (missing : Conditions) (arrays : List Array)
        → IsLoaded (S.shelf shelf.old) loaded.old.drives missing (slot_in loaded.old.slot) loaded.old.record arrays
        → IsFound (S.shelf shelf.old) loaded.old.drives missing (slot_in loaded.old.slot) loaded.old.record
        → ((i : ℕ) → IsMember loaded.new.drives i → i < (S.shelf shelf.old).drives)
        → (later : Conditions) → TellsFailed (S.shelf shelf.old) loaded.old.drives missing (λ d. ((S.shelf shelf.new).disk d).faults) later
        → IsInForceOn (S.shelf shelf.new) loaded.new.drives later (other_slot (slot_in loaded.new.slot)) loaded.new.record }
{
    let slots = shelf.drives() as usize;
    let slot = loaded.slot;
    settle(shelf, &mut loaded.drives[..slots], slot);
}

/// Finds the record in force and settles it: it is in force then on the drives that are left, one by one.
pub fn find_record<S: Shelf>(alloc: Global, shelf: &mut S) -> Result<Loaded, OpenFault>
    ensures ran { Ran S.shelf S.shelf_rest IsDrive OnGates shelf.old shelf.new }
    ensures loaded { IfOk result (IsRecordFound (S.shelf shelf.old) (S.shelf shelf.new)) }
    // What the drives showed gives the record, or why there is none.
    ensures seen { (S.shelf shelf.old).honest → IsSeenBy (S.shelf shelf.old) (S.shelf shelf.new) result }
    // At every moment the devices stand for the arrays for which they stood.
    ensures stands { (S.shelf shelf.old).honest → StandsWhileFinding (S.shelf shelf.old) (S.shelf shelf.new) }
    // Where no more is missing than is borne it is found, also where more has gone missing since.
    ensures found { (S.shelf shelf.old).honest → (missing : Conditions) (arrays : List Array) → Enters (S.shelf shelf.old) missing arrays
        → (later : Conditions) → IsWithin (failed_since (S.shelf shelf.old) (S.shelf shelf.new) missing) later → IsBearable (geometry_of (S.shelf shelf.old)) later
        → IsFoundBy (S.shelf shelf.new) later arrays result }
{
    let mut loaded = load(alloc, shelf)?;
    settle_loaded(shelf, &mut loaded);
    if count_set(&loaded.drives) + MISSING_MAX < shelf.drives() as usize {
        return Err(OpenFault::TooFew(loaded.drives));
    }
    Ok(loaded)
}
