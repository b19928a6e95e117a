ghost use Rattle.std.specs.Prelude.{◌↔◌, IsTrue, IfOk, IfNone, IfSome};
ghost use Rattle.pur_base.specs.declared.request.Table.{Table};
ghost use Rattle.boot_codec.specs.Record.{IsBootRecord};
ghost use Rattle.pyramid.specs.Layers.{facts_of};
ghost use Rattle.table_soundness.specs.Addresses.{AreAddressesRight};
ghost use Rattle.loaded_tables.specs.Elided.{AreElidedBy};
ghost use Rattle.loaded_tables.specs.Loaded.{facts_in, AreLawful};
ghost use Rattle.table_soundness.specs.Faults.{AreVisible, IsFirst, IsTableSound};
ghost use Rattle.table_soundness.specs.Items.{AreObjectsRight, AreSegmentsRight};
ghost use Rattle.table_soundness.specs.Mediums.{AreMediumsRight};

use crate::addresses::are_addresses_sound;
use crate::elisions::are_elisions_sound;
use crate::first::first_false;
use crate::mediums::are_mediums_sound;
use crate::objects::are_objects_sound;
use crate::segments::are_segments_sound;
use crate::visible::{Visible, visible_in};
use boot_codec::BootRecord;
use elision::Elided;
use loaded_tables::{LoadedTables, elided_by};
use pur_base::{NoMemory, Table};
use std::alloc::Global;

/// Whether the objects are sound.
fn objects_hold(
    alloc: Global,
    boot: &BootRecord,
    elided: &Elided,
    tables: &LoadedTables,
    visible: &Visible,
) -> Result<bool, NoMemory>
    requires boot { IsBootRecord boot.now }
    requires elided { AreElidedBy (facts_of tables.now.elisions.items) elided.now }
    requires visible { AreVisible (facts_in tables.now) visible.now }
    ensures { IfOk result (λ b. IsTrue b ↔ AreObjectsRight boot.now.next (facts_in tables.now)) }
{
    are_objects_sound(alloc, &boot.next, elided, &tables.objects, &visible.objects)
}

/// Whether the ranges of mediums are sound.
fn mediums_hold(
    alloc: Global,
    boot: &BootRecord,
    tables: &LoadedTables,
    visible: &Visible,
) -> Result<bool, NoMemory>
    requires facts { AreLawful tables.now }
    requires visible { AreVisible (facts_in tables.now) visible.now }
    ensures { IfOk result (λ b. IsTrue b ↔ AreMediumsRight boot.now.next.medium (facts_in tables.now)) }
{
    let next = boot.next.medium;
    are_mediums_sound(
        alloc,
        next,
        &tables.mediums,
        &visible.mediums,
        &visible.objects,
    )
}

/// Whether the addresses are sound.
fn addresses_hold(boot: &BootRecord, tables: &LoadedTables, visible: &Visible) -> bool
    requires facts { AreLawful tables.now }
    requires visible { AreVisible (facts_in tables.now) visible.now }
    ensures { IsTrue result ↔ AreAddressesRight boot.now.next.medium (facts_in tables.now) }
{
    are_addresses_sound(
        boot.next.medium,
        &tables.addresses,
        &visible.addresses,
        &visible.objects,
        &visible.segments,
    )
}

/// Whether the segments are sound.
fn segments_hold(
    alloc: Global,
    slots: u8,
    units: u16,
    boot: &BootRecord,
    tables: &LoadedTables,
    visible: &Visible,
) -> Result<bool, NoMemory>
    requires boot { IsBootRecord boot.now }
    requires facts { AreLawful tables.now }
    requires visible { AreVisible (facts_in tables.now) visible.now }
    ensures { IfOk result (λ b. IsTrue b ↔ AreSegmentsRight (record { slots = slots; units = units }) boot.now (facts_in tables.now)) }
{
    are_segments_sound(
        alloc,
        slots,
        units,
        boot,
        &tables.segments,
        &visible.segments,
    )
}

/// The first table that isn't sound, by what is elided and what is visible.
fn first_unsound(
    alloc: Global,
    slots: u8,
    units: u16,
    boot: &BootRecord,
    tables: &LoadedTables,
    elided: &Elided,
    visible: &Visible,
) -> Result<Option<Table>, NoMemory>
    requires boot { IsBootRecord boot.now }
    requires facts { AreLawful tables.now }
    requires elided { AreElidedBy (facts_of tables.now.elisions.items) elided.now }
    requires visible { AreVisible (facts_in tables.now) visible.now }
    ensures none { IfOk result (λ o. IfNone o ((t : Table) → IsTableSound (record { slots = slots; units = units }) boot.now (facts_in tables.now) t)) }
    ensures some { IfOk result (λ o. IfSome o (IsFirst (IsTableSound (record { slots = slots; units = units }) boot.now (facts_in tables.now)))) }
{
    let objects = objects_hold(alloc, boot, elided, tables, visible)?;
    let mediums = mediums_hold(alloc, boot, tables, visible)?;
    let addresses = addresses_hold(boot, tables, visible);
    let segments = segments_hold(alloc, slots, units, boot, tables, visible)?;
    let elisions = are_elisions_sound(alloc, &boot.next, &tables.elisions)?;
    Ok(first_false(objects, mediums, addresses, segments, elisions))
}

/// What is found where each table is judged by itself: the first one that isn't sound, and what is visible of all.
#[derive(Drop)]
pub struct Judged {
    pub fault: Option<Table>,
    pub visible: Visible,
}

/// Judges each table by itself.
pub fn judge_own(
    alloc: Global,
    slots: u8,
    units: u16,
    boot: &BootRecord,
    tables: &LoadedTables,
) -> Result<Judged, NoMemory>
    requires boot { IsBootRecord boot.now }
    requires facts { AreLawful tables.now }
    ensures none { IfOk result (λ j. IfNone j.fault ((t : Table) → IsTableSound (record { slots = slots; units = units }) boot.now (facts_in tables.now) t)) }
    ensures some { IfOk result (λ j. IfSome j.fault (IsFirst (IsTableSound (record { slots = slots; units = units }) boot.now (facts_in tables.now)))) }
    ensures visible { IfOk result (λ j. AreVisible (facts_in tables.now) j.visible) }
{
    let elided = elided_by(alloc, &tables.elisions)?;
    let visible = visible_in(alloc, tables, &elided)?;
    let fault = first_unsound(alloc, slots, units, boot, tables, &elided, &visible)?;
    Ok(Judged { fault, visible })
}
