ghost use Rattle.std.specs.Prelude.{◌≡◌, ◌<◌, ◌↔◌, IsTrue, All};
ghost use Rattle.pur_base.specs.Keys.{id_of};
ghost use Rattle.pyramid.specs.Layers.{facts_of, IsPatch};

use pur_base::Fact;
use pyramid::Patch;

/// Whether the id of each fact is below the next one. Facts ascend by key, of which the id is the highest part, so the last one tells it.
fn below_by_last<F: Fact>(facts: &[F], next: u64) -> bool
    requires { IsPatch F.key facts.now }
    ensures { IsTrue result ↔ All (λ f. id_of (F.key f) < next) facts.now }
{
    facts[facts.len() - 1].id() < next
}

/// Whether the id of each fact of the patches is below the next one.
pub fn are_ids_below<F: Fact + Drop>(patches: &[Patch<F>], next: u64) -> bool
    ensures { IsTrue result ↔ All (λ f. id_of (F.key f) < next) (facts_of patches.now) }
{
    for patch in patches {
        if !below_by_last(patch.facts(), next) {
            return false;
        }
    }
    true
}
