ghost use Rattle.std.specs.Prelude.{◌≡◌, ◌<◌, ◌↔◌, IsTrue, IfOk, All, AllPairs, Contains};
ghost use Rattle.std.specs.List.Sorted.{IsNonDecreasing};
ghost use Rattle.table_soundness.specs.Items.{OwnTheirMediums};
ghost use Rattle.table_soundness.specs.Mediums.{Avoids, volume_mediums};

use crate::distinct::are_strictly_rising;
use pur_base::{NoMemory, ObjectFact, ObjectKind};
use std::alloc::Global;

/// The mediums of the volumes.
pub fn volume_mediums(alloc: Global, objects: &[ObjectFact]) -> Result<Vec<u64>, NoMemory>
    ensures { IfOk result (λ v. v.items ≡ volume_mediums objects.now) }
{
    let mut mediums = Vec::new(alloc);
    for object in objects {
        match object.kind {
            ObjectKind::Volume => mediums.push(object.medium.0)?,
            ObjectKind::Snapshot => {}
        }
    }
    Ok(mediums)
}

/// Whether the numbers, which are in order, have this one.
pub fn has(numbers: &[u64], number: u64) -> bool
    requires { IsNonDecreasing numbers.now }
    ensures { IsTrue result ↔ Contains numbers.now number }
{
    numbers.binary_search(&number).is_ok()
}

/// Whether the object is a volume, or its medium is none of the mediums, which are in order.
fn avoids(object: &ObjectFact, mediums: &[u64]) -> bool
    requires { IsNonDecreasing mediums.now }
    ensures { IsTrue result ↔ Avoids mediums.now object.now }
{
    match object.kind {
        ObjectKind::Volume => true,
        ObjectKind::Snapshot => !has(mediums, object.medium.0),
    }
}

/// The same of each object.
fn avoid(objects: &[ObjectFact], mediums: &[u64]) -> bool
    requires { IsNonDecreasing mediums.now }
    ensures { IsTrue result ↔ All (Avoids mediums.now) objects.now }
{
    for object in objects {
        if !avoids(object, mediums) {
            return false;
        }
    }
    true
}

/// Whether the mediums of volumes, which are in order, differ, and no snapshot has one of them.
fn are_owned(objects: &[ObjectFact], mediums: &[u64]) -> bool
    requires { IsNonDecreasing mediums.now }
    ensures { IsTrue result ↔ (AllPairs (λ m n. m < n) mediums.now × All (Avoids mediums.now) objects.now) }
{
    are_strictly_rising(mediums) && avoid(objects, mediums)
}

/// Whether no other object has the medium of a volume.
pub fn own_their_mediums(alloc: Global, objects: &[ObjectFact]) -> Result<bool, NoMemory>
    ensures { IfOk result (λ b. IsTrue b ↔ OwnTheirMediums objects.now) }
{
    let mut mediums = volume_mediums(alloc, objects)?;
    mediums.sort_unstable();
    Ok(are_owned(objects, &mediums))
}
