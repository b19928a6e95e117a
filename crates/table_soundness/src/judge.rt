ghost use Rattle.std.specs.Prelude.{◌≡◌, ◌≢◌, ◌++◌, AllPairs, IfOk, OnOk, IfNone, IfSome};
ghost use Rattle.pur_base.specs.declared.request.Table.{Table};
ghost use Rattle.array_spec.specs.Sound.{AreSound};
ghost use Rattle.boot_codec.specs.Record.{IsBootRecord};
ghost use Rattle.loaded_tables.specs.Loaded.{facts_in, patches_in, AreLawful, AreNamed};
ghost use Rattle.table_soundness.specs.Faults.{numbers_before, numbers_of, AreNumbersOf, AreVisible, IsFault, IsFirst};

use crate::distinct::are_distinct;
use crate::fault::SoundFault;
use crate::first::first_false;
use crate::marking::are_marked_sound;
use crate::numbers::{are_in_order, are_numbers_sound, push_all_numbers};
use crate::own::judge_own;
use crate::visible::Visible;
use boot_codec::BootRecord;
use loaded_tables::LoadedTables;
use pur_base::{NoMemory, Table};
use std::alloc::Global;

/// The sequence numbers of all facts, table by table.
fn all_numbers(alloc: Global, tables: &LoadedTables) -> Result<Vec<u64>, NoMemory>
    ensures { IfOk result (λ v. v.items ≡ numbers_before tables.now Table.Elision ++ numbers_of tables.now Table.Elision) }
{
    let mut numbers = Vec::new(alloc);
    push_all_numbers(&mut numbers, &tables.objects)?;
    push_all_numbers(&mut numbers, &tables.mediums)?;
    push_all_numbers(&mut numbers, &tables.addresses)?;
    push_all_numbers(&mut numbers, &tables.segments)?;
    push_all_numbers(&mut numbers, &tables.elisions)?;
    Ok(numbers)
}

/// The first table with a number that doesn't suit those before it, where no two facts have one number.
fn order_fault(next: u64, tables: &LoadedTables) -> Option<Table>
    requires { AllPairs (λ m n. m ≢ n) (numbers_before tables.now Table.Elision ++ numbers_of tables.now Table.Elision) }
    ensures none { IfNone result ((t : Table) → AreNumbersOf next tables.now t) }
    ensures some { IfSome result (IsFirst (AreNumbersOf next tables.now)) }
{
    first_false(
        are_in_order(&tables.objects, next),
        are_in_order(&tables.mediums, next),
        are_in_order(&tables.addresses, next),
        are_in_order(&tables.segments, next),
        are_in_order(&tables.elisions, next),
    )
}

/// The first table with a number that doesn't suit those before it, found table by table.
fn fault_by_table(
    alloc: Global,
    next: u64,
    tables: &LoadedTables,
) -> Result<Option<Table>, NoMemory>
    ensures none { IfOk result (λ o. IfNone o ((t : Table) → AreNumbersOf next tables.now t)) }
    ensures some { IfOk result (λ o. IfSome o (IsFirst (AreNumbersOf next tables.now))) }
{
    let mut numbers = Vec::new(alloc);
    let objects = are_numbers_sound(alloc, &mut numbers, &tables.objects, next)?;
    let mediums = are_numbers_sound(alloc, &mut numbers, &tables.mediums, next)?;
    let addresses = are_numbers_sound(alloc, &mut numbers, &tables.addresses, next)?;
    let segments = are_numbers_sound(alloc, &mut numbers, &tables.segments, next)?;
    let elisions = are_numbers_sound(alloc, &mut numbers, &tables.elisions, next)?;
    Ok(first_false(objects, mediums, addresses, segments, elisions))
}

/// The first table with a number that doesn't suit those before it. Sound numbers that lie densely are marked in one pass, and others listed.
pub fn number_fault(
    alloc: Global,
    next: u64,
    tables: &LoadedTables,
) -> Result<Option<Table>, NoMemory>
    ensures none { IfOk result (λ o. IfNone o ((t : Table) → AreNumbersOf next tables.now t)) }
    ensures some { IfOk result (λ o. IfSome o (IsFirst (AreNumbersOf next tables.now))) }
{
    if are_marked_sound(alloc, next, tables) {
        return Ok(None);
    }
    let mut numbers = all_numbers(alloc, tables)?;
    if are_distinct(alloc, &mut numbers) {
        Ok(order_fault(next, tables))
    } else {
        fault_by_table(alloc, next, tables)
    }
}

/// Judges the tables, and gives what is visible of them where they are sound. It takes memory for that, and for lists of numbers and their marks.
/// Want of memory aside, it answers `Unsound` with the first table that fails: each table by itself, then the sequence numbers.
pub fn check(
    alloc: Global,
    slots: u8,
    units: u16,
    boot: &BootRecord,
    tables: &LoadedTables,
) -> Result<Visible, SoundFault>
    requires boot { IsBootRecord boot.now }
    requires facts { AreLawful tables.now }
    requires named { AreNamed boot.now tables.now }
    ensures sound { OnOk result (AreSound (record { slots = slots; units = units }) boot.now (patches_in tables.now)) }
    ensures visible { IfOk result (AreVisible (facts_in tables.now)) }
    ensures fault { (t : Table) → result ≡ Err (SoundFault.Unsound t) → IsFault (record { slots = slots; units = units }) boot.now tables.now t }
{
    let own = judge_own(alloc, slots, units, boot, tables)?;
    if let Some(table) = own.fault {
        return Err(SoundFault::Unsound(table));
    }
    let numbers = number_fault(alloc, boot.next.sequence, tables)?;
    match numbers {
        Some(table) => Err(SoundFault::Unsound(table)),
        None => Ok(own.visible),
    }
}
