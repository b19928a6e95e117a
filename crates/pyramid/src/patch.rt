ghost use Rattle.std.specs.Prelude.{◌≡◌, ◌≢◌, ℕ, true, false, List, None, Some, Contains, IfNone, IfSome, slice_index, slice_index_or, ◌<◌, ◌≤◌, ◌+◌, ◌++◌, length, take, drop};
ghost use Rattle.std.specs.Vec.{vec_len, vec_capacity};
ghost use Rattle.pur_base.specs.Says.{Ascends};
ghost use Rattle.std.specs.Option.{option_or};
ghost use Rattle.pyramid.specs.Layers.{IsPatch, newest_of, patch_facts, patches_of};
ghost use Rattle.pyramid.specs.Runs.{IsNewestRun};

use crate::marks::{Marks, is_any_marked, is_marked, marks_of};
use crate::pointed::{Pointed, is_any_between, pointed_by};
use crate::runs::{has_any, run_in};
use crate::search::newest_in;
use crate::walk::put_missing;
use pur_base::Fact;
use std::marker::Model;

/// A patch that is held whole: some facts, of each key one, by ascending key. Contracts see the facts.
#[derive(Drop)]
pub struct Patch<F: Fact + Drop> {
    facts: Vec<F>,
    marks: Marks,
    pointed: Pointed,
}

impl<F: Fact + Drop> Model for Patch<F> {
    ghost use Rattle.std.specs.Prelude.{List};
    ghost use Rattle.pyramid.specs.Patches.{IsSummed};

    ghost Value = { List F };

    ghost view = { λ p. p.facts.items };

    ghost invariant = { λ p. IsSummed F.key F.pointed p.facts.items p.marks p.pointed.first p.pointed.last };
}

impl<F: Fact + Drop> Patch<F> {
    /// A patch of these facts, or `None` where there is none.
    pub fn from_facts(facts: Vec<F>) -> Option<Patch<F>>
        requires { Ascends F.key facts.items }
        ensures { patch_facts result ≡ facts.items }
    {
        if facts.as_slice().is_empty() {
            None
        } else {
            Some(Patch::new(facts))
        }
    }

    /// A patch of facts that are known to be one. It takes no memory.
    pub fn new(facts: Vec<F>) -> Patch<F>
        requires { IsPatch F.key facts.items }
        ensures { result ≡ facts.items }
    {
        let marks = marks_of(&facts);
        let pointed = pointed_by(&facts);
        Patch {
            facts,
            marks,
            pointed,
        }
    }

    /// Its facts, by ascending key.
    pub fn facts(&self) -> &[F]
        ensures value { result.now ≡ self.now }
        ensures patch { IsPatch F.key result.now }
    {
        &self.facts
    }

    /// The fact of a key. A patch without the key's mark isn't searched.
    pub fn newest(&self, key: u128) -> Option<F>
        ensures { result ≡ newest_of F.key F.number key self.now }
    {
        if is_marked(&self.marks, key) {
            newest_in(&self.facts, key)
        } else {
            None
        }
    }

    /// Whether one of its facts may point to one of these segments: one of the ids lies between the lowest and the highest that its facts point to.
    pub fn may_point(&self, ids: &[u64]) -> bool
        ensures { result ≡ false → (f : F) → Contains self.now f → (i : ℕ) → i < length ids.now → F.pointed f ≢ Some (slice_index ids.now i) }
    {
        is_any_between(ids, self.pointed)
    }

    /// Puts its facts of each key, from the first one on, where nothing stands. A patch without a mark of these keys isn't searched.
    pub fn put_missing(&self, from: u128, out: &mut [Option<F>])
        ensures { (i : ℕ) → i < length out.new → slice_index_or out.new i None ≡ option_or (slice_index_or out.old i None) (newest_of F.key F.number (from + i) self.now) }
    {
        if is_any_marked(&self.marks, from, out.len()) {
            put_missing(&self.facts, from, out);
        }
    }

    /// Whether one of so many keys has a fact, from the first one on. A patch without a mark of these keys isn't searched.
    pub fn has_any(&self, from: u128, len: usize) -> bool
        ensures there { result ≡ true → (f : F) × Contains self.now f × (from ≤ F.key f) × (F.key f < from + len) }
        ensures absent { result ≡ false → (i : ℕ) → i < len → newest_of F.key F.number (from + i) self.now ≡ None }
    {
        is_any_marked(&self.marks, from, len) && has_any(&self.facts, from, len)
    }

    /// The facts of so many keys, from the first one on, if each has one.
    pub fn run(&self, from: u128, len: usize) -> Option<&[F]>
        requires { 0 < len }
        ensures some { IfSome result (λ run. IsNewestRun F.key F.number self.now from len run.now) }
        ensures none { IfNone result ((run : List F) → IsNewestRun F.key F.number self.now from len run → ⊥) }
    {
        run_in(&self.facts, from, len)
    }
}

/// Puts a patch, if there is one, behind the others. It takes no memory.
pub fn push_patch<F: Fact + Drop>(patches: &mut Vec<Patch<F>>, patch: Option<Patch<F>>)
    requires { vec_len patches.old < vec_capacity patches.old }
    ensures { patches.new.items ≡ patches.old.items ++ patches_of patch }
{
    if let Some(patch) = patch {
        match patches.push(patch) {
            Ok(()) => {}
            Err(_) => unreachable!(),
        }
    }
}

/// Puts a patch, if there is one, in the place of two neighbours. It takes no memory.
pub fn replace_pair<F: Fact + Drop>(patches: &mut Vec<Patch<F>>, i: usize, patch: Option<Patch<F>>)
    requires { i + 1 < length patches.old.items }
    ensures items { patches.new.items ≡ take i patches.old.items ++ (patches_of patch ++ drop (i + 2) patches.old.items) }
    ensures capacity { vec_capacity patches.new ≡ vec_capacity patches.old }
    ensures len { vec_len patches.new < vec_len patches.old }
{
    match patch {
        Some(patch) => {
            patches[i] = patch;
            patches.remove(i + 1);
        }
        None => {
            patches.remove(i + 1);
            patches.remove(i);
        }
    }
}

/// Puts a patch, if there is one, in the place of the only one. It takes no memory.
pub fn replace_only<F: Fact + Drop>(patches: &mut Vec<Patch<F>>, patch: Option<Patch<F>>)
    requires { length patches.old.items ≡ 1 }
    ensures items { patches.new.items ≡ patches_of patch }
    ensures capacity { vec_capacity patches.new ≡ vec_capacity patches.old }
    ensures len { vec_len patches.new ≤ vec_len patches.old }
{
    match patch {
        Some(patch) => patches[0] = patch,
        None => patches.clear(),
    }
}
