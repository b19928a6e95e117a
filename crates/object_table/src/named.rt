ghost use Rattle.std.specs.Prelude.{◌≡◌, ◌≢◌, ◌+◌, ◌<◌, ◌≤◌, ℕ, IfOk, IfSome, IfNone, All, AllPairs, length, map, slice_index_or};
ghost use Rattle.indexmap.specs.IndexMap.{spare};
ghost use Rattle.pur_base.specs.Says.{Ascends};
ghost use Rattle.pur_base.specs.Facts.{object_key};
ghost use Rattle.object_table.specs.Objects.{AreNamesDistinct, objects_of};

use indexmap::IndexMap;
use pur_base::{Name, NoMemory, OBJECTS, ObjectFact, ObjectId};
use std::alloc::Global;

/// Objects by name, in their order, with room for as many as there may be.
pub fn by_name(
    alloc: Global,
    objects: &[ObjectFact],
) -> Result<IndexMap<Name, ObjectFact>, NoMemory>
    requires { AreNamesDistinct objects.now }
    ensures entries { IfOk result (λ m. m.entries ≡ map (λ x. (x.name, x)) objects.now) }
    ensures room { IfOk result (λ m. OBJECTS ≤ length objects.now + spare m) }
{
    let mut named = IndexMap::with_capacity(alloc, OBJECTS)?;
    for object in objects {
        named.insert(object.name, *object)?;
    }
    Ok(named)
}

/// Where the object of an id stands.
pub fn place_of(named: &IndexMap<Name, ObjectFact>, id: ObjectId) -> Option<usize>
    requires { Ascends object_key (objects_of named.now.entries) }
    ensures some { IfSome result (λ at. (at < length named.now.entries) × ((d : ObjectFact) → (slice_index_or (objects_of named.now.entries) at d).object.0 ≡ id.0)) }
    ensures none { IfNone result (All (λ x. x.object.0 ≢ id.0) (objects_of named.now.entries)) }
{
    let at = named.partition_point(|_, object| object.object.0 < id.0);
    match named.get_index(at) {
        Some((_, object)) => if object.object == id { Some(at) } else { None },
        None => None,
    }
}
