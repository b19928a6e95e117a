use pur_base::{AddressFact, ElisionFact, MediumFact, ObjectFact, SegmentFact};
use pyramid::Patch;

/// The patches of each table, oldest first, as they were loaded.
#[derive(Drop)]
pub struct LoadedTables {
    pub objects: Vec<Patch<ObjectFact>>,
    pub mediums: Vec<Patch<MediumFact>>,
    pub addresses: Vec<Patch<AddressFact>>,
    pub segments: Vec<Patch<SegmentFact>>,
    pub elisions: Vec<Patch<ElisionFact>>,
}
