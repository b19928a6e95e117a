ghost use Rattle.std.specs.Prelude.{◌≡◌, ◌≢◌, ℕ, ◌<◌, ◌≤◌, length, slice_index_or, IfSome, IfNone, All};
ghost use Rattle.pur_base.specs.Keys.{id_of};
ghost use Rattle.pur_base.specs.Says.{Ascends};
ghost use Rattle.table_soundness.specs.Last.{IsLastOf};

use pur_base::Fact;

/// Where the facts of the ids up to this one end.
fn end_of_id<F: Fact>(facts: &[F], id: u64) -> usize
    requires { Ascends F.key facts.now }
    ensures within { result ≤ length facts.now }
    ensures below { (i : ℕ) (d : F) → i < result → id_of (F.key (slice_index_or facts.now i d)) ≤ id }
    ensures above { (i : ℕ) (d : F) → result ≤ i → i < length facts.now → id < id_of (F.key (slice_index_or facts.now i d)) }
{
    let mut low = 0;
    let mut high = facts.len();
    while low < high {
        let middle = low + (high - low) / 2;
        if facts[middle].id() <= id {
            low = middle + 1;
        } else {
            high = middle;
        }
    }
    low
}

/// The last fact of an id, or `None` where none has it.
pub fn last_of<F: Fact>(facts: &[F], id: u64) -> Option<F>
    requires { Ascends F.key facts.now }
    ensures some { IfSome result (IsLastOf F.key facts.now id) }
    ensures none { IfNone result (All (λ f. id_of (F.key f) ≢ id) facts.now) }
{
    let end = end_of_id(facts, id);
    if end == 0 {
        return None;
    }
    let last = facts[end - 1];
    if last.id() == id { Some(last) } else { None }
}
