ghost use Rattle.std.specs.Prelude.{IfOk};
ghost use Rattle.pyramid.specs.Layers.{facts_of};
ghost use Rattle.loaded_tables.specs.Elided.{AreElidedBy};
ghost use Rattle.loaded_tables.specs.Loaded.{facts_in};
ghost use Rattle.table_soundness.specs.Faults.{AreVisible};

use crate::shown::shown;
use elision::Elided;
use loaded_tables::LoadedTables;
use pur_base::{AddressFact, MediumFact, NoMemory, ObjectFact, SegmentFact, Table};
use std::alloc::Global;

/// The visible facts of each table that has some, by ascending key.
#[derive(Drop)]
pub struct Visible {
    pub objects: Vec<ObjectFact>,
    pub mediums: Vec<MediumFact>,
    pub addresses: Vec<AddressFact>,
    pub segments: Vec<SegmentFact>,
}

/// What is visible of the tables, of which that is elided.
pub fn visible_in(
    alloc: Global,
    tables: &LoadedTables,
    elided: &Elided,
) -> Result<Visible, NoMemory>
    requires { AreElidedBy (facts_of tables.now.elisions.items) elided.now }
    ensures { IfOk result (AreVisible (facts_in tables.now)) }
{
    let no_objects = elided.ranges(Table::Object);
    let objects = shown(alloc, &tables.objects, no_objects)?;
    let no_mediums = elided.ranges(Table::Medium);
    let mediums = shown(alloc, &tables.mediums, no_mediums)?;
    let no_addresses = elided.ranges(Table::Address);
    let addresses = shown(alloc, &tables.addresses, no_addresses)?;
    let no_segments = elided.ranges(Table::Segment);
    let segments = shown(alloc, &tables.segments, no_segments)?;
    Ok(Visible {
        objects,
        mediums,
        addresses,
        segments,
    })
}
