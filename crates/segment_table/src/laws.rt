ghost use Rattle.std.specs.Prelude.{◌≡◌, ◌<◌, ◌≤◌, ◌^◌, ℕ, All};
ghost use Rattle.pur_base.specs.declared.request.Table.TheVariants as table;
ghost use Rattle.pur_base.specs.Facts.{Facts};
ghost use Rattle.pur_base.specs.Visible.{is_elided, segments};
ghost use Rattle.pyramid.specs.Layers.{facts_in};
ghost use Rattle.segment_table.specs.Segments.{AreVisible, Segments};

/// The visible segments are those of the facts of all tables, where the elided ids are those of its elisions and all ids are below the next one.
pub fn laws_of_segments()
    ensures { (facts : Facts) (next : ℕ) (t : Segments) → facts.segments ≡ facts_in t.facts → next ≤ 2 ^ 64 → All (λ f. f.segment.0 < next) facts.segments
        → AreVisible (is_elided facts.elisions table.Segment) t → t.visible ≡ segments facts next }
{}
