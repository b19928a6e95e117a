ghost use Rattle.std.specs.Prelude.{◌≡◌, ◌↔◌, ◌<◌, ◌≤◌, ℕ, Bool, List, Contains};
ghost use Rattle.pur_base.specs.Says.{says};
ghost use Rattle.pur_base.specs.declared.facts.ElisionFact.{ElisionFact};
ghost use Rattle.pur_base.specs.declared.request.Table.{Table};
ghost use Rattle.pur_base.specs.Facts.{elision_key, is_narrower};
ghost use Rattle.pur_base.specs.Tags.{tag_of};
ghost use Rattle.pur_base.specs.Visible.{is_elided};
ghost use Rattle.pyramid.specs.Layers.{AreCovered, AreDistinct, Grow, NestAsRanges};

use pur_base::Fact;

/// Facts in another order, or taken in twice, say the same.
pub fn laws_of_facts<F: Fact>()
    ensures { (xs ys : List F) → ((f : F) → Contains xs f ↔ Contains ys f) → AreDistinct F.number ys → (elided : ℕ → Bool) (k : ℕ)
        → says F.key F.number F.empty xs elided k ≡ says F.key F.number F.empty ys elided k }
{}

/// Elisions lie in one another as the ranges of their ids do. Where some are left out that lie in others, the same ids are elided;
/// and where of one first id newer elisions reach at least as far, a newer one says all that an older one does.
pub fn laws_of_elisions()
    ensures nest { NestAsRanges elision_key is_narrower }
    ensures ids { (old new : List ElisionFact) → AreCovered is_narrower old new → ((f : ElisionFact) → Contains new f → Contains old f)
        → (table : Table) (id : ℕ) → is_elided new table id ≡ is_elided old table id }
    ensures grow { (fs : List ElisionFact)
        → ((f g : ElisionFact) → Contains fs f → Contains fs g → f.first ≡ g.first → tag_of f.table ≡ tag_of g.table → f.seq.0 < g.seq.0 → f.last ≤ g.last)
        → Grow elision_key (λ f. f.seq.0) is_narrower fs }
{}
