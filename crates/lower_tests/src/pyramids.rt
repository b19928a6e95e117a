ghost use Rattle.std.specs.Prelude.{◌≡◌, ◌+◌, ◌<◌, [], All, IsTrue};
ghost use Rattle.pyramid.specs.Layers.{facts_of};

use pur_base::{MediumFact, MediumId, Seq};
use pyramid::Pyramid;
use std::alloc::Global;

const START: u64 = 4;

const KEY: u128 = (7 << 64) + START as u128;

fn range() -> MediumFact
    ensures { result.seq.0 ≡ 10 }
{
    MediumFact {
        medium: MediumId(7),
        start: START,
        end: 8,
        target: MediumId(2),
        target_start: 0,
        seq: Seq(10),
    }
}

/// Says the range in an empty table.
fn put_range(table: &mut Pyramid<MediumFact>) -> bool
    requires patches { table.old.patches ≡ [] }
    requires unflushed { table.old.unflushed ≡ [] }
{
    table.insert_run(&[range()]).is_ok()
}

/// Whether the table says the range at its key.
fn says_at_key(table: &Pyramid<MediumFact>) -> bool {
    table.newest(KEY, &[]) == Some(range())
}

/// Whether it says the range there alone, and nothing at the next key.
fn says_the_range(alloc: Global, table: &Pyramid<MediumFact>) -> bool {
    match table.range(alloc, KEY, KEY, &[]) {
        Ok(found) => {
            *found.as_slice() == *[range()].as_slice()
                && says_at_key(table)
                && table.newest(KEY + 1, &[]).is_none()
        }
        Err(_) => false,
    }
}

/// Whether a flush leaves one patch, and no fact beside it.
fn flushes(table: &mut Pyramid<MediumFact>, alloc: Global) -> bool {
    let Ok(patch) = table.flushed(alloc) else {
        return false;
    };
    table.put_flushed(patch);
    table.patches().len() == 1 && table.unflushed().is_empty()
}

fn is_said_before_and_after(alloc: Global) -> bool {
    let Ok(mut table) = Pyramid::new(alloc, 4) else {
        return false;
    };
    put_range(&mut table)
        && says_the_range(alloc, &table)
        && flushes(&mut table, alloc)
        && says_at_key(&table)
}

/// Whether room is reserved, and one fact is said then.
fn reserves(table: &mut Pyramid<MediumFact>) -> bool
    requires patches { table.old.patches ≡ [] }
    requires unflushed { table.old.unflushed ≡ [] }
{
    table.reserve(2).is_ok() && put_range(table) && table.unflushed().len() == 1
}

/// Whether no fact is left once it is taken back.
fn takes_back(table: &mut Pyramid<MediumFact>) -> bool {
    table.take_back(Seq(10));
    table.unflushed().is_empty()
}

fn is_taken_back(alloc: Global) -> bool {
    let Ok(mut table) = Pyramid::new(alloc, 0) else {
        return false;
    };
    reserves(&mut table) && takes_back(&mut table)
}

/// The same range up to another end, by a newer fact.
fn longer() -> MediumFact
    ensures { result.seq.0 ≡ 11 }
{
    MediumFact {
        end: 12,
        seq: Seq(11),
        ..range()
    }
}

/// Flushes a fact whose number is above all others.
fn flush_one(table: &mut Pyramid<MediumFact>, alloc: Global, fact: MediumFact) -> bool
    requires empty { table.old.unflushed ≡ [] }
    requires newer { All (λ f. f.seq.0 < fact.seq.0) (facts_of table.old.patches) }
    ensures unflushed { IsTrue result → table.new.unflushed ≡ [] }
    ensures numbers { IsTrue result → All (λ f. f.seq.0 < fact.seq.0 + 1) (facts_of table.new.patches) }
{
    let Ok(()) = table.insert(fact) else {
        return false;
    };
    let Ok(patch) = table.flushed(alloc) else {
        return false;
    };
    table.put_flushed(patch);
    true
}

/// Whether two patches become one.
fn merges(table: &mut Pyramid<MediumFact>, alloc: Global) -> bool {
    if table.patches().len() != 2 {
        return false;
    }
    let Ok(patch) = table.merged(alloc, 0, &[]) else {
        return false;
    };
    table.put_merged(0, patch);
    table.patches().len() == 1
}

/// Whether the first patch is of the longer range alone.
fn is_longer(table: &Pyramid<MediumFact>) -> bool {
    match table.patches() {
        [patch] => *patch.facts() == *[longer()].as_slice(),
        _ => false,
    }
}

/// Whether the only patch is rewritten to none, where the ids 6 and 7 are elided.
fn rewrites(table: &mut Pyramid<MediumFact>, alloc: Global) -> bool {
    if table.patches().len() != 1 {
        return false;
    }
    let Ok(patch) = table.rewritten(alloc, &[(6, 7)]) else {
        return false;
    };
    table.put_rewritten(patch);
    table.patches().len() == 0
}

fn newer_is_left_until_elided(alloc: Global) -> bool {
    let Ok(mut table) = Pyramid::new(alloc, 1) else {
        return false;
    };
    flush_one(&mut table, alloc, range())
        && flush_one(&mut table, alloc, longer())
        && merges(&mut table, alloc)
        && is_longer(&table)
        && rewrites(&mut table, alloc)
}

#[test]
fn each_holds(rt: HostRuntime) {
    assert!(rt;
        is_said_before_and_after(rt.alloc())
            && is_taken_back(rt.alloc())
            && newer_is_left_until_elided(rt.alloc())
    );
}
