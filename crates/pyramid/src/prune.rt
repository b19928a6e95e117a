ghost use Rattle.std.specs.Prelude.{◌≡◌, ◌<◌, ◌≤◌, ◌-◌, ◌==◌, [], false, length, if◌then◌else◌, slice_index_or};
ghost use Rattle.pur_base.specs.Says.{Ascends};
ghost use Rattle.pyramid.specs.Layers.{IsPruned, class_of};

use pur_base::Fact;

/// Classes of keys by their remainders. A fact is compared with those of its class alone: elisions of two tables never share one.
const CLASSES: usize = 8;

/// The class of a fact's key.
fn class_of<F: Fact>(fact: &F) -> usize
    ensures class { result ≡ class_of (F.key fact.now) }
    ensures below { result < CLASSES }
{
    (fact.key() % CLASSES as u128) as usize
}

/// Whether a fact lies in the last of some others.
fn lies_in_last<F: Fact>(facts: &[F], end: usize, fact: &F) -> bool
    requires { end ≤ length facts.now }
    ensures { result ≡ (if end == 0 then false else F.within fact.now (slice_index_or facts.now (end - 1) fact.now)) }
{
    if end == 0 {
        return false;
    }
    fact.lies_in(&facts[end - 1])
}

/// Takes the facts out that lie in one in front of them: in the last of their class that stays.
pub fn prune<F: Fact + Drop>(facts: &mut Vec<F>)
    requires { Ascends F.key facts.old.items }
    ensures { IsPruned F.key F.within facts.old.items facts.new.items [] }
{
    let mut kept = 0;
    let mut last = [0; CLASSES];
    for i in 0..facts.len() {
        let fact = facts[i];
        let class = class_of(&fact);
        if lies_in_last(facts, last[class], &fact) {
            continue;
        }
        facts[kept] = fact;
        kept += 1;
        last[class] = kept;
    }
    facts.truncate(kept);
}
