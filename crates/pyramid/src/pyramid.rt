ghost use Rattle.std.specs.Prelude.{◌≡◌, ◌⊎◌, ◌≢◌, ◌↔◌, ℕ, ◌+◌, ◌<◌, ◌≤◌, ◌==◌, Bool, true, nat_lt, filter, [], ◌∷◌, ◌++◌, All, length, take, drop, Contains, IfOk, IfSome, IfNone, None, OnOk, OnErr, IsOk, IsTrue, slice_index_or, ◌-◌};
ghost use Rattle.std.specs.Vec.{vec_len, vec_capacity};
ghost use Rattle.pur_base.specs.Says.{says, Ascends};
ghost use Rattle.pur_base.specs.Visible.{is_within};
ghost use Rattle.elision.specs.Ranges.{AreApart};
ghost use Rattle.pyramid.specs.Ends.{IsFirstSaid, IsLastSaid, IsSilent};
ghost use Rattle.pyramid.specs.Layers.{facts_in, facts_of, newest_of, patch_at, patch_facts, patches_of, AreBelow, AreCovered, AreDistinct, Grow, IsApart, IsFlushed, IsLayered, IsMerged, Rises, SaysTheSame};
ghost use Rattle.pyramid.specs.Runs.{IsNewestRun, NoneHasRun};
ghost use Rattle.elision.specs.Merging.{stays};

mod instead;

use crate::ends::{first_key_of_all, last_key_of_all};
use crate::insert::{insert_all, insert_in_order, keep_below};
use crate::patch::{Patch, push_patch, replace_only, replace_pair};
use crate::prune::prune;
use crate::range::{gathered, span};
use crate::runs::{has_any, run_flushed};
use crate::search::{id_of, newest_in};
use crate::walk::{empty_all, put_missing_flushed, put_newest};
use elision::{is_within, merge_facts, newest_of_each};
use pur_base::{Fact, NoMemory, Seq};
use std::alloc::Global;
use std::marker::Model;

/// Sorted patches, the oldest first, and the facts that aren't flushed yet, by key and number.
/// Numbers rise: each of a patch is below each of the next ones and of what isn't flushed.
#[derive(Drop)]
pub struct Pyramid<F: Fact + Drop> {
    patches: Vec<Patch<F>>,
    unflushed: Vec<F>,
}

impl<F: Fact + Drop> Model for Pyramid<F> {
    ghost use Rattle.std.specs.Prelude.{◌-◌};
    ghost use Rattle.std.specs.Vec.{vec_len, vec_capacity};
    ghost use Rattle.pyramid.specs.Layers.{Layers, IsLayered};

    ghost Value = { Layers F };

    ghost view = { λ p. record { patches = p.patches.items; unflushed = p.unflushed.items; room = vec_capacity p.unflushed - vec_len p.unflushed; patch_room = vec_capacity p.patches - vec_len p.patches } };

    ghost invariant = { λ p. IsLayered F.key F.number p.patches.items p.unflushed.items };
}

/// The newest fact of a key in patches: the first that is met from the newest patch down.
fn newest_flushed<F: Fact + Drop>(patches: &[Patch<F>], key: u128) -> Option<F>
    requires { Rises F.number patches.now [] }
    ensures { result ≡ newest_of F.key F.number key (facts_of patches.now) }
{
    let mut i = patches.len();
    while i > 0 {
        if let Some(fact) = patches[i - 1].newest(key) {
            return Some(fact);
        }
        i -= 1;
    }
    None
}

/// That each of the patches ascends by key: they are gone through for it alone, and no fact is read.
fn all_ascend<F: Fact + Drop>(patches: &[Patch<F>])
    ensures { All (Ascends F.key) patches.now }
{
    for patch in patches {
        let _facts = patch.facts();
    }
}

impl<F: Fact + Drop> Pyramid<F> {
    /// No facts, and room for so many that aren't flushed.
    pub fn new(alloc: Global, room: usize) -> Result<Self, NoMemory>
        ensures { IfOk result (λ p. (p.patches ≡ []) × (p.unflushed ≡ []) × (p.room ≡ room)) }
    {
        Ok(Pyramid {
            patches: Vec::new(alloc),
            unflushed: Vec::with_capacity(alloc, room)?,
        })
    }

    /// The table of patches whose numbers are known to rise, the oldest first, in which no fact is unflushed. It takes no memory.
    pub fn from_patches(alloc: Global, patches: Vec<Patch<F>>) -> Self
        requires { Rises F.number patches.items [] }
        ensures patches { result.patches ≡ patches.items }
        ensures unflushed { (result.unflushed ≡ []) × (result.room ≡ 0) }
        ensures patch_room { result.patch_room ≡ vec_capacity patches - vec_len patches }
        ensures layered { IsLayered F.key F.number result.patches result.unflushed }
    {
        all_ascend(&patches);
        Pyramid {
            patches,
            unflushed: Vec::new(alloc),
        }
    }

    /// Reserves room for so many more facts that aren't flushed. Nothing else changes, whatever is answered.
    pub fn reserve(&mut self, additional: usize) -> Result<(), NoMemory>
        ensures room { OnOk result (additional ≤ self.new.room) }
        ensures room_left { self.old.room ≤ self.new.room }
        ensures rest { self.new ≡ record self.old { room = self.new.room } }
    {
        self.unflushed.reserve(additional)?;
        Ok(())
    }

    /// The facts that aren't flushed, by key and number.
    pub fn unflushed(&self) -> &[F]
        ensures { result.now ≡ self.now.unflushed }
    {
        &self.unflushed
    }

    /// The patches, the oldest first.
    pub fn patches(&self) -> &[Patch<F>]
        ensures { result.now ≡ self.now.patches }
    {
        &self.patches
    }

    /// The newest fact of a key, whether it is empty or elided.
    fn newest_of_all(&self, key: u128) -> Option<F>
        ensures { result ≡ newest_of F.key F.number key (facts_in self.now) }
    {
        match newest_in(&self.unflushed, key) {
            Some(fact) => Some(fact),
            None => newest_flushed(&self.patches, key),
        }
    }

    /// What the facts say at a key: its newest fact, unless that is empty or its id lies in one of the elided ranges.
    pub fn newest(&self, key: u128, elided: &[(u64, u64)]) -> Option<F>
        requires { AreApart elided.now }
        ensures { result ≡ says F.key F.number F.empty (facts_in self.now) (is_within elided.now) key }
    {
        if is_within(elided, id_of(key)) {
            return None;
        }
        match self.newest_of_all(key) {
            Some(fact) => if fact.is_empty() { None } else { Some(fact) },
            None => None,
        }
    }

    /// What the facts say at the keys from the first to the last, by ascending key: two searches a patch, and a walk.
    pub fn range(
        &self,
        alloc: Global,
        from: u128,
        to: u128,
        elided: &[(u64, u64)],
    ) -> Result<Vec<F>, NoMemory>
        requires { AreApart elided.now }
        ensures ascends { IfOk result (λ v. Ascends F.key v.items) }
        ensures facts { IfOk result (λ v. (f : F) → Contains v.items f ↔ ((from ≤ F.key f) × (F.key f ≤ to) × (says F.key F.number F.empty (facts_in self.now) (is_within elided.now) (F.key f) ≡ Some f))) }
    {
        let older = gathered(alloc, &self.patches, from, to)?;
        let newer = newest_of_each(alloc, span(&self.unflushed, from, to))?;
        merge_facts(alloc, &older, &newer, true, elided)
    }

    /// The newest facts of as many keys as there are places, from this one on, whether they are empty or elided:
    /// a search a patch, and a walk. It takes no memory.
    pub fn newest_from(&self, from: u128, out: &mut [Option<F>])
        ensures { (i : ℕ) → i < length out.new → slice_index_or out.new i None ≡ newest_of F.key F.number (from + i) (facts_in self.now) }
    {
        empty_all(out);
        put_newest(&self.unflushed, from, out);
        put_missing_flushed(&self.patches, from, out);
    }

    /// The newest facts of so many keys, from this one on, whether they are empty or elided, as they lie in one patch:
    /// a search a patch. `None` where no patch has them all, and for no key.
    pub fn run_from(&self, from: u128, len: usize) -> Option<&[F]>
        ensures some { IfSome result (λ run. IsNewestRun F.key F.number (facts_in self.now) from len run.now) }
        ensures none { IfNone result (0 < len → NoneHasRun F.key F.number self.now.patches (facts_in self.now) from len) }
    {
        if len == 0 {
            return None;
        }
        if has_any(&self.unflushed, from, len) {
            None
        } else {
            run_flushed(&self.patches, from, len)
        }
    }

    /// The last fact that is said of the keys from the first to the last: two searches a patch for each key that is passed over.
    pub fn last_between(&self, from: u128, to: u128, elided: &[(u64, u64)]) -> Option<F>
        requires { AreApart elided.now }
        ensures found { IfSome result (λ f. IsLastSaid F.key (says F.key F.number F.empty (facts_in self.now) (is_within elided.now)) from to f) }
        ensures absent { IfNone result (IsSilent (says F.key F.number F.empty (facts_in self.now) (is_within elided.now)) from to) }
    {
        let mut end = to;
        while from <= end {
            let key = last_key_of_all(&self.patches, &self.unflushed, from, end);
            if let Some(fact) = self.newest(key, elided) {
                return Some(fact);
            }
            if key == from {
                return None;
            }
            end = key - 1;
        }
        None
    }

    /// The first fact that is said of the keys from the first to the last: two searches a patch for each key that is passed over.
    pub fn first_between(&self, from: u128, to: u128, elided: &[(u64, u64)]) -> Option<F>
        requires { AreApart elided.now }
        ensures found { IfSome result (λ f. IsFirstSaid F.key (says F.key F.number F.empty (facts_in self.now) (is_within elided.now)) from to f) }
        ensures absent { IfNone result (IsSilent (says F.key F.number F.empty (facts_in self.now) (is_within elided.now)) from to) }
    {
        let mut start = from;
        while start <= to {
            let key = first_key_of_all(&self.patches, &self.unflushed, start, to);
            if let Some(fact) = self.newest(key, elided) {
                return Some(fact);
            }
            if key == to {
                return None;
            }
            start = key + 1;
        }
        None
    }

    /// What holds of the layers of each table.
    pub fn layers(&self)
        ensures { IsLayered F.key F.number self.now.patches self.now.unflushed }
    {
        let _patches = &self.patches;
    }

    /// Takes a fact in, unless it is there. It takes no memory where there is room, and an `Err` changes nothing.
    pub fn insert(&mut self, fact: F) -> Result<(), NoMemory>
        requires distinct { AreDistinct F.number (fact ∷ self.old.unflushed) }
        requires rising { All (λ f. F.number f < F.number fact) (facts_of self.old.patches) }
        ensures patches { self.new.patches ≡ self.old.patches }
        ensures facts { OnOk result ((f : F) → Contains self.new.unflushed f ↔ (Contains self.old.unflushed f ⊎ (f ≡ fact))) }
        ensures says { OnOk result ((elided : ℕ → Bool) (k : ℕ) → says F.key F.number F.empty (facts_in self.new) elided k ≡ says F.key F.number F.empty (facts_in self.old ++ fact ∷ []) elided k) }
        ensures refused { OnErr result (self.new.unflushed ≡ self.old.unflushed) }
        ensures room { 0 < self.old.room → IsOk result }
        ensures room_left { self.old.room ≤ self.new.room + 1 }
        ensures patch_room { self.new.patch_room ≡ self.old.patch_room }
    {
        insert_in_order(&mut self.unflushed, fact)
    }

    /// The first half of a flush: the patch of the unflushed facts, of each key the newest, and room for one patch more.
    /// `None` where no fact is unflushed. What the table says and holds stays.
    pub fn flushed(&mut self, alloc: Global) -> Result<Option<Patch<F>>, NoMemory>
        ensures patch { IfOk result (λ patch. IsFlushed F.key F.number self.old.unflushed (patch_facts patch)) }
        ensures patch_room { OnOk result (0 < self.new.patch_room) }
        ensures patch_room_left { self.old.patch_room ≤ self.new.patch_room }
        ensures patches { self.new.patches ≡ self.old.patches }
        ensures unflushed { self.new.unflushed ≡ self.old.unflushed }
        ensures room { self.new.room ≡ self.old.room }
    {
        self.patches.reserve(1)?;
        let newest = newest_of_each(alloc, &self.unflushed)?;
        Ok(Patch::from_facts(newest))
    }

    /// The second half of a flush: the patch is the newest one, and no fact is unflushed. It takes no memory.
    pub fn put_flushed(&mut self, patch: Option<Patch<F>>)
        requires patch_room { 0 < self.old.patch_room }
        requires patch { IsFlushed F.key F.number self.old.unflushed (patch_facts patch) }
        ensures patches { self.new.patches ≡ self.old.patches ++ patches_of patch }
        ensures unflushed { self.new.unflushed ≡ [] }
        ensures room { self.new.room ≡ self.old.room + length self.old.unflushed }
        ensures says { (elided : ℕ → Bool) (k : ℕ) → says F.key F.number F.empty (facts_in self.new) elided k ≡ says F.key F.number F.empty (facts_in self.old) elided k }
        ensures covers { Grow F.key F.number F.within (facts_in self.old) → AreCovered F.within (facts_in self.old) (facts_in self.new) }
    {
        push_patch(&mut self.patches, patch);
        self.unflushed.clear();
    }

    /// The first half of a merge: a patch and the next one as one, without what it need not keep.
    /// `None` where no fact is left.
    pub fn merged(
        &self,
        alloc: Global,
        i: usize,
        elided: &[(u64, u64)],
    ) -> Result<Option<Patch<F>>, NoMemory>
        requires there { i + 1 < length self.now.patches }
        requires apart { AreApart elided.now }
        ensures { IfOk result (λ patch. IsMerged F.key F.number F.empty F.within (i == 0) (is_within elided.now) (patch_at self.now i) (patch_at self.now (i + 1)) (patch_facts patch)) }
    {
        let mut facts = merge_facts(
            alloc,
            self.patches[i].facts(),
            self.patches[i + 1].facts(),
            i == 0,
            elided,
        )?;
        prune(&mut facts);
        Ok(Patch::from_facts(facts))
    }

    /// The second half of a merge: the patch stands in the place of the two that it is made of. It takes no memory.
    pub fn put_merged(&mut self, i: usize, patch: Option<Patch<F>>)
        requires there { i + 1 < length self.old.patches }
        requires ascends { Ascends F.key (patch_facts patch) }
        requires source { (f : F) → Contains (patch_facts patch) f → Contains (patch_at self.old i ++ patch_at self.old (i + 1)) f }
        ensures patches { self.new.patches ≡ take i self.old.patches ++ (patches_of patch ++ drop (i + 2) self.old.patches) }
        ensures unflushed { self.new.unflushed ≡ self.old.unflushed }
        ensures room { self.new.room ≡ self.old.room }
        ensures patch_room { self.old.patch_room < self.new.patch_room }
        ensures says { (elided : ℕ → Bool) → IsMerged F.key F.number F.empty F.within (i == 0) elided (patch_at self.old i) (patch_at self.old (i + 1)) (patch_facts patch) → IsApart F.within
            → SaysTheSame F.key F.number F.empty elided (facts_in self.old) (facts_in self.new) }
        ensures covers { (elided : ℕ → Bool) → IsMerged F.key F.number F.empty F.within (i == 0) elided (patch_at self.old i) (patch_at self.old (i + 1)) (patch_facts patch)
            → ((f : F) → IsTrue (stays F.key F.empty (i == 0) elided f)) → Grow F.key F.number F.within (facts_in self.old) → AreCovered F.within (facts_in self.old) (facts_in self.new) }
    {
        replace_pair(&mut self.patches, i, patch);
    }

    /// Takes in facts of ascending keys, of which none is there: the same as one by one, but each fact moves once.
    /// It takes no memory where there is room for them, and an `Err` changes nothing.
    pub fn insert_run(&mut self, run: &[F]) -> Result<(), NoMemory>
        requires ascends { Ascends F.key run.now }
        requires fresh { (f g : F) → Contains run.now f → Contains self.old.unflushed g → F.number f ≢ F.number g }
        requires rising { AreBelow F.number (facts_of self.old.patches) run.now }
        ensures patches { self.new.patches ≡ self.old.patches }
        ensures facts { OnOk result ((f : F) → Contains self.new.unflushed f ↔ (Contains self.old.unflushed f ⊎ Contains run.now f)) }
        ensures says { OnOk result ((elided : ℕ → Bool) (k : ℕ) → says F.key F.number F.empty (facts_in self.new) elided k ≡ says F.key F.number F.empty (facts_in self.old ++ run.now) elided k) }
        ensures refused { OnErr result (self.new.unflushed ≡ self.old.unflushed) }
        ensures room { length run.now ≤ self.old.room → IsOk result }
        ensures room_left { self.old.room ≤ self.new.room + length run.now }
        ensures patch_room { self.new.patch_room ≡ self.old.patch_room }
    {
        insert_all(&mut self.unflushed, run)
    }

    /// Takes the unflushed facts out that have that number or a greater one. It takes no memory.
    pub fn take_back(&mut self, from: Seq)
        ensures patches { self.new.patches ≡ self.old.patches }
        ensures unflushed { self.new.unflushed ≡ filter (λ f. nat_lt (F.number f) from.0) self.old.unflushed }
        ensures room { self.old.room ≤ self.new.room }
        ensures patch_room { self.new.patch_room ≡ self.old.patch_room }
    {
        keep_below(&mut self.unflushed, from);
    }

    /// The first half of a rewriting of a table's only patch: the patch without what it need not keep.
    /// `None` where no fact is left.
    pub fn rewritten(
        &self,
        alloc: Global,
        elided: &[(u64, u64)],
    ) -> Result<Option<Patch<F>>, NoMemory>
        requires only { length self.now.patches ≡ 1 }
        requires apart { AreApart elided.now }
        ensures { IfOk result (λ patch. IsMerged F.key F.number F.empty F.within true (is_within elided.now) [] (patch_at self.now 0) (patch_facts patch)) }
    {
        let mut facts = merge_facts(alloc, &[], self.patches[0].facts(), true, elided)?;
        prune(&mut facts);
        Ok(Patch::from_facts(facts))
    }

    /// The second half of a rewriting: the patch stands in the place of the only one. It takes no memory.
    pub fn put_rewritten(&mut self, patch: Option<Patch<F>>)
        requires only { length self.old.patches ≡ 1 }
        requires ascends { Ascends F.key (patch_facts patch) }
        requires source { (f : F) → Contains (patch_facts patch) f → Contains (patch_at self.old 0) f }
        ensures patches { self.new.patches ≡ patches_of patch }
        ensures unflushed { self.new.unflushed ≡ self.old.unflushed }
        ensures room { self.new.room ≡ self.old.room }
        ensures patch_room { self.old.patch_room ≤ self.new.patch_room }
        ensures says { (elided : ℕ → Bool) → IsMerged F.key F.number F.empty F.within true elided [] (patch_at self.old 0) (patch_facts patch) → IsApart F.within
            → SaysTheSame F.key F.number F.empty elided (facts_in self.old) (facts_in self.new) }
        ensures covers { (elided : ℕ → Bool) → IsMerged F.key F.number F.empty F.within true elided [] (patch_at self.old 0) (patch_facts patch)
            → ((f : F) → IsTrue (stays F.key F.empty true elided f)) → Grow F.key F.number F.within (facts_in self.old) → AreCovered F.within (facts_in self.old) (facts_in self.new) }
    {
        replace_only(&mut self.patches, patch);
    }
}
