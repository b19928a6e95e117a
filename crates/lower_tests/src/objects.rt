ghost use Rattle.std.specs.Prelude.{◌≡◌, ◌<◌, [], All, Contains, IfSome, IsTrue};
ghost use Rattle.pur_base.specs.declared.facts.ObjectFact.{ObjectFact};
ghost use Rattle.pyramid.specs.Layers.{facts_in};

use object_table::ObjectTable;
use pur_base::{MediumId, Name, ObjectFact, ObjectId, ObjectKind, Seq};
use pyramid::Pyramid;
use std::alloc::Global;

fn name_a() -> Name {
    match Name::read(b"a") {
        Ok(name) => name,
        Err(_) => unreachable!(),
    }
}

fn volume() -> ObjectFact
    ensures object { result.object.0 ≡ 3 }
    ensures seq { result.seq.0 ≡ 10 }
{
    ObjectFact {
        object: ObjectId(3),
        kind: ObjectKind::Volume,
        sectors: 8,
        medium: MediumId(5),
        name: name_a(),
        seq: Seq(10),
    }
}

fn empty_table(alloc: Global) -> Option<ObjectTable>
    ensures facts { IfSome result (λ t. (t.facts.patches ≡ []) × (t.facts.unflushed ≡ [])) }
    ensures visible { IfSome result (λ t. t.visible ≡ []) }
{
    let Ok(facts) = Pyramid::new(alloc, 4) else {
        return None;
    };
    match ObjectTable::from_facts(alloc, facts, &[]) {
        Ok(table) => Some(table),
        Err(_) => None,
    }
}

/// Puts the volume into an empty table.
fn adds(table: &mut ObjectTable) -> bool
    requires facts { (table.old.facts.patches ≡ []) × (table.old.facts.unflushed ≡ []) }
    requires visible { table.old.visible ≡ [] }
    ensures numbers { IsTrue result → All (λ f. f.seq.0 < 11) (facts_in table.new.facts) }
    ensures there { IsTrue result → (x : ObjectFact) × Contains table.new.visible x × (x.object.0 ≡ 3) }
{
    if table.reserve(1).is_err() {
        return false;
    }
    match table.add(volume()) {
        Ok(()) => true,
        Err(_) => false,
    }
}

/// Whether the volume is the only object.
fn has_the_volume(table: &ObjectTable) -> bool {
    table.len() == 1 && table.get(&name_a()).is_some()
}

/// Whether the volume takes another medium, by the second of two facts.
fn takes_medium(table: &mut ObjectTable) -> bool
    requires numbers { All (λ f. f.seq.0 < 11) (facts_in table.old.facts) }
    requires there { (x : ObjectFact) × Contains table.old.visible x × (x.object.0 ≡ 3) }
{
    if table.set_medium(ObjectId(3), MediumId(6), Seq(11)).is_err() {
        return false;
    }
    match table.at(0) {
        Some(object) => object.medium == MediumId(6) && table.facts().unflushed().len() == 2,
        None => false,
    }
}

/// Whether it is there no longer once it is removed.
fn removes(table: &mut ObjectTable) -> bool {
    table.remove(ObjectId(3));
    table.get(&name_a()).is_none()
}

fn is_found_until_removed(alloc: Global) -> bool {
    let Some(mut table) = empty_table(alloc) else {
        return false;
    };
    adds(&mut table)
        && has_the_volume(&table)
        && takes_medium(&mut table)
        && has_the_volume(&table)
        && removes(&mut table)
}

#[test]
fn each_holds(rt: HostRuntime) {
    assert!(rt; is_found_until_removed(rt.alloc()));
}
