ghost use Rattle.std.specs.Prelude.{◌≡◌, ◌≢◌, ◌⊎◌, ◌↔◌, ◌+◌, ◌<◌, ◌≤◌, ◌∷◌, nat_lt, filter, length, take, Contains, OnOk, OnErr, IsOk};
ghost use Rattle.std.specs.Vec.{vec_len, vec_capacity};
ghost use Rattle.pur_base.specs.Says.{Ascends};
ghost use Rattle.pyramid.specs.Layers.{AreDistinct, IsOrdered};

use crate::search::{is_at, is_before, place_of};
use pur_base::{Fact, NoMemory, Seq};

/// Puts a fact in its place, unless it is there.
pub fn insert_in_order<F: Fact + Drop>(facts: &mut Vec<F>, fact: F) -> Result<(), NoMemory>
    requires ordered { IsOrdered F.key F.number facts.old.items }
    requires distinct { AreDistinct F.number (fact ∷ facts.old.items) }
    ensures ordered { IsOrdered F.key F.number facts.new.items }
    ensures facts { OnOk result ((f : F) → Contains facts.new.items f ↔ (Contains facts.old.items f ⊎ (f ≡ fact))) }
    ensures refused { OnErr result (facts.new.items ≡ facts.old.items) }
    ensures room { vec_len facts.old < vec_capacity facts.old → IsOk result }
    ensures capacity { vec_capacity facts.old ≤ vec_capacity facts.new }
    ensures len { vec_len facts.new ≤ vec_len facts.old + 1 }
{
    let at = place_of(facts, &fact);
    if is_at(facts, at, &fact) {
        return Ok(());
    }
    facts.insert(at, fact)?;
    Ok(())
}

/// Takes the facts out that have that number or a greater one.
pub fn keep_below<F: Fact + Drop>(facts: &mut Vec<F>, from: Seq)
    ensures items { facts.new.items ≡ filter (λ f. nat_lt (F.number f) from.0) facts.old.items }
    ensures capacity { vec_capacity facts.new ≡ vec_capacity facts.old }
    ensures len { vec_len facts.new ≤ vec_len facts.old }
{
    facts.retain(|fact| fact.seq().0 < from.0)
}

/// Takes in facts of ascending keys, of which none is there. They are merged from behind, so that each fact moves once.
pub fn insert_all<F: Fact + Drop>(facts: &mut Vec<F>, run: &[F]) -> Result<(), NoMemory>
    requires ordered { IsOrdered F.key F.number facts.old.items }
    requires ascends { Ascends F.key run.now }
    requires fresh { (f g : F) → Contains run.now f → Contains facts.old.items g → F.number f ≢ F.number g }
    ensures ordered { IsOrdered F.key F.number facts.new.items }
    ensures facts { OnOk result ((f : F) → Contains facts.new.items f ↔ (Contains facts.old.items f ⊎ Contains run.now f)) }
    ensures refused { OnErr result (facts.new.items ≡ facts.old.items) }
    ensures room { vec_len facts.old + length run.now ≤ vec_capacity facts.old → IsOk result }
    ensures capacity { vec_capacity facts.old ≤ vec_capacity facts.new }
    ensures len { vec_len facts.new ≤ vec_len facts.old + length run.now }
{
    let len = facts.len();
    facts.extend_from_slice(run)?;
    merge_back(facts, run, len);
    Ok(())
}

/// Merges facts into the others, behind which is as much room as they take.
fn merge_back<F: Fact>(facts: &mut [F], run: &[F], len: usize)
    requires size { len + length run.now ≡ length facts.old }
    requires ordered { IsOrdered F.key F.number (take len facts.old) }
    requires ascends { Ascends F.key run.now }
    requires fresh { (f g : F) → Contains run.now f → Contains (take len facts.old) g → F.number f ≢ F.number g }
    ensures ordered { IsOrdered F.key F.number facts.new }
    ensures facts { (f : F) → Contains facts.new f ↔ (Contains (take len facts.old) f ⊎ Contains run.now f) }
{
    let mut i = len;
    let mut j = run.len();
    while j > 0 {
        let last = run[j - 1];
        if i > 0 && is_before(&last, &facts[i - 1]) {
            facts[i + j - 1] = facts[i - 1];
            i -= 1;
        } else {
            facts[i + j - 1] = last;
            j -= 1;
        }
    }
}
