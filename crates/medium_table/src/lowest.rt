ghost use Rattle.std.specs.Prelude.{◌≡◌, ◌⊎◌, ℕ, ◌<◌, ◌≤◌, Contains, IfOk};
ghost use Rattle.pur_base.specs.Says.{Ascends};
ghost use Rattle.pur_base.specs.Visible.{is_within};
ghost use Rattle.elision.specs.Ranges.{AreApart};
ghost use Rattle.medium_table.specs.Reaching.{id_of_medium, AreLowestUnreached};

use pur_base::{MediumId, NoMemory};
use std::alloc::Global;

/// The first id from this one on that is behind the last one, and the next one where that isn't below it.
fn past(last: u64, id: u64, next: u64) -> u64
    requires { id < next }
    ensures from { id ≤ result }
    ensures within { result ≤ next }
    ensures behind { (last < result) ⊎ (result ≡ next) }
    ensures first { (i : ℕ) → id ≤ i → i < result → i ≤ last }
{
    if last < id {
        id
    } else if last < next {
        last + 1
    } else {
        next
    }
}

/// The mediums of the lowest ids that are neither elided nor reached, so many at most: ids from 1 on, below the next one.
/// A range of elided ids is one turn, however long it is.
pub fn unreached(
    alloc: Global,
    elided: &[(u64, u64)],
    reached: &[MediumId],
    next: u64,
    most: usize,
) -> Result<Vec<u64>, NoMemory>
    requires apart { AreApart elided.now }
    requires ascends { Ascends id_of_medium reached.now }
    ensures { IfOk result (λ v. AreLowestUnreached (is_within elided.now) (λ id. Contains reached.now (record { 0 = id })) next most v.items) }
{
    let mut ids = Vec::new(alloc);
    let mut id = 1;
    let mut i = 0;
    let mut j = 0;
    while id < next && ids.len() < most {
        if i < elided.len() && elided[i].0 <= id {
            id = past(elided[i].1, id, next);
            i += 1;
        } else if j < reached.len() && reached[j].0 <= id {
            id = past(reached[j].0, id, next);
            j += 1;
        } else {
            ids.push(id)?;
            id += 1;
        }
    }
    Ok(ids)
}
