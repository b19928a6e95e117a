ghost use Rattle.std.specs.Prelude.{◌≡◌, ℕ, ◌+◌, ◌-◌, ◌<◌, ◌≤◌, [], length, slice_index_or, IfSome, IfNone, None, true};
ghost use Rattle.std.specs.Option.{option_or};
ghost use Rattle.pur_base.specs.Says.{Ascends};
ghost use Rattle.pyramid.specs.Layers.{facts_of, newest_of, IsOrdered, Rises};

use crate::patch::Patch;
use crate::search::start_of;
use pur_base::Fact;

/// The place of a key among so many keys from the first one on.
fn place_of_key(key: u128, from: u128, len: usize) -> Option<usize>
    requires { from ≤ key }
    ensures there { IfSome result (λ i. (i < len) × (key ≡ from + i)) }
    ensures absent { IfNone result (from + len ≤ key) }
{
    let past = key - from;
    if past < len as u128 {
        Some(past as usize)
    } else {
        None
    }
}

/// Empties each place.
pub fn empty_all<F: Fact>(out: &mut [Option<F>])
    ensures { (i : ℕ) → i < length out.new → slice_index_or out.new i None ≡ None }
{
    for place in out.iter_mut() {
        *place = None;
    }
}

/// Puts the newest of these facts of each key, from the first one on, in the place of what stands there.
pub fn put_newest<F: Fact>(facts: &[F], from: u128, out: &mut [Option<F>])
    requires { IsOrdered F.key F.number facts.now }
    ensures { (i : ℕ) → i < length out.new → slice_index_or out.new i None ≡ option_or (newest_of F.key F.number (from + i) facts.now) (slice_index_or out.old i None) }
{
    let mut at = start_of(facts, from);
    while at < facts.len() {
        let fact = facts[at];
        match place_of_key(fact.key(), from, out.len()) {
            Some(place) => out[place] = Some(fact),
            None => return,
        }
        at += 1;
    }
}

/// Whether each place is filled.
fn are_filled<F: Fact>(out: &[Option<F>]) -> bool
    ensures { result ≡ true → (i : ℕ) → i < length out.now → slice_index_or out.now i None ≡ None → ⊥ }
{
    for place in out {
        if place.is_none() {
            return false;
        }
    }
    true
}

/// Puts these facts of each key, from the first one on, where nothing stands.
pub fn put_missing<F: Fact>(facts: &[F], from: u128, out: &mut [Option<F>])
    requires { Ascends F.key facts.now }
    ensures { (i : ℕ) → i < length out.new → slice_index_or out.new i None ≡ option_or (slice_index_or out.old i None) (newest_of F.key F.number (from + i) facts.now) }
{
    let mut at = start_of(facts, from);
    while at < facts.len() {
        let fact = facts[at];
        match place_of_key(fact.key(), from, out.len()) {
            Some(place) => if out[place].is_none() {
                out[place] = Some(fact);
            },
            None => return,
        }
        at += 1;
    }
}

/// Puts the newest fact of each key, from the first one on, where nothing stands: a patch after the other from the newest on, until each place is filled.
pub fn put_missing_flushed<F: Fact + Drop>(patches: &[Patch<F>], from: u128, out: &mut [Option<F>])
    requires { Rises F.number patches.now [] }
    ensures { (i : ℕ) → i < length out.new → slice_index_or out.new i None ≡ option_or (slice_index_or out.old i None) (newest_of F.key F.number (from + i) (facts_of patches.now)) }
{
    let mut left = patches.len();
    while left > 0 {
        if are_filled(out) {
            return;
        }
        left -= 1;
        patches[left].put_missing(from, out);
    }
}
