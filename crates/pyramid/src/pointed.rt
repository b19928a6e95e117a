ghost use Rattle.std.specs.Prelude.{◌≡◌, ℕ, ◌<◌, ◌≤◌, false, length, slice_index, Some};
ghost use Rattle.pyramid.specs.Pointed.{AreBetween};

use pur_base::Fact;

/// The lowest and the highest id of the segments that facts point to. Where none points to one, the lowest is above the highest.
#[derive(Clone, Copy, Drop)]
pub struct Pointed {
    pub first: u64,
    pub last: u64,
}

/// The bounds of what the fact points to, and of these.
fn with_fact<F: Fact>(pointed: Pointed, fact: &F) -> Pointed
    ensures own { (id : ℕ) → F.pointed fact.now ≡ Some id → (result.first ≤ id) × (id ≤ result.last) }
    ensures wider { (result.first ≤ pointed.first) × (pointed.last ≤ result.last) }
{
    match fact.pointed() {
        Some(id) => Pointed {
            first: pointed.first.min(id),
            last: pointed.last.max(id),
        },
        None => pointed,
    }
}

/// The bounds of what some facts point to.
pub fn pointed_by<F: Fact>(facts: &[F]) -> Pointed
    ensures { AreBetween F.pointed facts.now result.first result.last }
{
    let mut pointed = Pointed {
        first: u64::MAX,
        last: 0,
    };
    for fact in facts {
        pointed = with_fact(pointed, fact);
    }
    pointed
}

/// Whether one of the ids lies between the bounds.
pub fn is_any_between(ids: &[u64], pointed: Pointed) -> bool
    ensures { result ≡ false → (i : ℕ) → i < length ids.now → (pointed.first ≤ slice_index ids.now i) × (slice_index ids.now i ≤ pointed.last) → ⊥ }
{
    for id in ids {
        if pointed.first <= *id && *id <= pointed.last {
            return true;
        }
    }
    false
}
