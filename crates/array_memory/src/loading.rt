ghost use Rattle.std.specs.Prelude.{◌≡◌, [], All, Some, IfOk};
ghost use Rattle.boot_codec.specs.Record.{AreNext};
ghost use Rattle.pur_base.specs.Devices.{Geometry};
ghost use Rattle.pur_base.specs.Plain.{Array};
ghost use Rattle.pur_base.specs.declared.request.Table.{Table};
ghost use Rattle.pur_base.specs.Facts.{object_key, never};
ghost use Rattle.pur_base.specs.Says.{says};
ghost use Rattle.pur_base.specs.Visible.{is_within};
ghost use Rattle.elision.specs.Ranges.{ranges_of, AreApart};
ghost use Rattle.pyramid.specs.Layers.{facts_in, facts_of};
ghost use Rattle.object_table.specs.Objects.{number, AreVisible};
ghost use Rattle.segment_table.specs.Segments.{AreVisible as AreShown};
ghost use Rattle.array_spec.specs.Sound.{AreSound};
ghost use Rattle.array_spec.specs.Stored.{all_facts};
ghost use Rattle.memory_spec.specs.Memory.{Contents, FactsRead, IsSound, ReadsAs};
ghost use Rattle.memory_spec.specs.Tables.{facts, patches};
ghost use Rattle.loaded_tables.specs.Elided.{AreElidedBy, IsRange};
ghost use Rattle.loaded_tables.specs.Loaded.{patches_in, AreLawful, AreNamed};
ghost use Rattle.command_spec.specs.Loaded.{memory_of, AreInSegments, HasLogRoom, IsLoaded};

use crate::memory::Memory;
use crate::witnesses::witnesses_among;
use address_table::AddressTable;
use boot_codec::{BootRecord, NextNumbers};
use command_spec::LOG_ROOM;
use elision::Elided;
use loaded_tables::elided_by;
use medium_table::MediumTable;
use object_table::ObjectTable;
use pur_base::{AddressFact, ElisionFact, MediumFact, NoMemory, ObjectFact, SegmentFact, Table};
use pyramid::{Patch, Pyramid};
use segment_table::SegmentTable;
use std::alloc::Global;

/// That no ranges of a table overlap or touch: they are read for it alone.
pub fn are_apart(elided: &Elided)
    ensures { (t : Table) → AreApart (ranges_of elided.now t) }
{
    let _objects = elided.ranges(Table::Object);
    let _mediums = elided.ranges(Table::Medium);
    let _addresses = elided.ranges(Table::Address);
    let _segments = elided.ranges(Table::Segment);
    let _elisions = elided.ranges(Table::Elision);
}

/// What elisions elide, of which none is unflushed.
fn elided_ids(alloc: Global, elisions: &Pyramid<ElisionFact>) -> Result<Elided, NoMemory>
    requires flushed { elisions.now.unflushed ≡ [] }
    requires ranges { All IsRange (facts_of elisions.now.patches) }
    ensures elided { IfOk result (AreElidedBy (facts_of elisions.now.patches)) }
    ensures apart { IfOk result (λ e. (t : Table) → AreApart (ranges_of e t)) }
{
    let elided = elided_by(alloc, elisions.patches())?;
    are_apart(&elided);
    Ok(elided)
}

/// The tables that hold beside their facts what is visible: of objects and of segments.
fn seen_tables(
    alloc: Global,
    objects: Pyramid<ObjectFact>,
    segments: Pyramid<SegmentFact>,
    elided: &Elided,
) -> Result<(ObjectTable, SegmentTable), NoMemory>
    requires { (x y : ObjectFact) → says object_key number never (facts_in objects) (is_within (ranges_of elided.now Table.Object)) (object_key x) ≡ Some x
        → says object_key number never (facts_in objects) (is_within (ranges_of elided.now Table.Object)) (object_key y) ≡ Some y → x.name ≡ y.name → x ≡ y }
    ensures objects { IfOk result (λ t. t.0.facts ≡ objects) }
    ensures visible { IfOk result (λ t. AreVisible (is_within (ranges_of elided.now Table.Object)) t.0) }
    ensures segments { IfOk result (λ t. t.1.facts ≡ segments) }
    ensures shown { IfOk result (λ t. AreShown (is_within (ranges_of elided.now Table.Segment)) t.1) }
{
    let objects = ObjectTable::from_facts(alloc, objects, elided.ranges(Table::Object))?;
    let segments = SegmentTable::from_facts(alloc, segments, elided.ranges(Table::Segment))?;
    Ok((objects, segments))
}

/// Memory of these sound facts, in which nothing is staged, with no room kept yet. Its witnesses are of these addresses.
fn of_facts(
    alloc: Global,
    next: NextNumbers,
    objects: Pyramid<ObjectFact>,
    mediums: Pyramid<MediumFact>,
    addresses: Pyramid<AddressFact>,
    segments: Pyramid<SegmentFact>,
    elisions: Pyramid<ElisionFact>,
    visible: &[AddressFact],
) -> Result<Memory, NoMemory>
    requires sound { IsSound (memory_of objects mediums addresses segments elisions next) }
    requires flushed { elisions.unflushed ≡ [] }
    ensures { IfOk result (λ m. m.memory ≡ memory_of objects mediums addresses segments elisions next) }
{
    let elided = elided_ids(alloc, &elisions)?;
    let (objects, segments) = seen_tables(alloc, objects, segments, &elided)?;
    let witnesses = witnesses_among(alloc, segments.all(), visible)?;
    Ok(Memory {
        objects,
        mediums: MediumTable::from_facts(mediums),
        addresses: AddressTable::from_facts(addresses),
        segments,
        elisions,
        elided,
        staged: Vec::new(alloc),
        next,
        witnesses,
    })
}

impl Memory {
    /// Memory of tables that were loaded and are sound, with room for the commands of a whole log. The visible addresses are hints alone: by them the first
    /// checkpoint knows which segments are in use without a pass over all facts.
    /// It fails for want of memory only.
    pub fn from_tables(
        alloc: Global,
        boot: &BootRecord,
        objects: Vec<Patch<ObjectFact>>,
        mediums: Vec<Patch<MediumFact>>,
        addresses: Vec<Patch<AddressFact>>,
        segments: Vec<Patch<SegmentFact>>,
        elisions: Vec<Patch<ElisionFact>>,
        visible: &[AddressFact],
    ) -> Result<Memory, NoMemory>
        requires sound { (shelf : Geometry) × AreSound shelf boot.now (patches_in (record { objects = objects; mediums = mediums; addresses = addresses; segments = segments; elisions = elisions })) }
        requires facts { AreLawful (record { objects = objects; mediums = mediums; addresses = addresses; segments = segments; elisions = elisions }) }
        requires named { AreNamed boot.now (record { objects = objects; mediums = mediums; addresses = addresses; segments = segments; elisions = elisions }) }
        requires next { AreNext boot.now.next }
        ensures loaded { IfOk result (λ m. IsLoaded boot.now (record { objects = objects; mediums = mediums; addresses = addresses; segments = segments; elisions = elisions }) m.memory) }
        ensures sound { IfOk result (λ m. IsSound m.memory) }
        ensures reads { IfOk result (λ m. (contents : Contents) (base : Array) → FactsRead contents [] (all_facts (patches m.memory.tables)) m.memory.next.object base → ReadsAs contents m.memory base) }
        ensures stored { IfOk result (λ m. AreInSegments (facts m.memory.tables).addresses) }
        ensures room { IfOk result HasLogRoom }
    {
        let objects = Pyramid::from_patches(alloc, objects);
        let mediums = Pyramid::from_patches(alloc, mediums);
        let addresses = Pyramid::from_patches(alloc, addresses);
        let segments = Pyramid::from_patches(alloc, segments);
        let elisions = Pyramid::from_patches(alloc, elisions);
        let mut memory = of_facts(
            alloc, boot.next, objects, mediums, addresses, segments, elisions, visible,
        )?;
        memory.reserve(&LOG_ROOM)?;
        Ok(memory)
    }
}
