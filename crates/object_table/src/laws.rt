ghost use Rattle.std.specs.Prelude.{◌≡◌, ◌<◌, ◌≤◌, ◌^◌, ℕ, All};
ghost use Rattle.pur_base.specs.declared.request.Table.TheVariants as table;
ghost use Rattle.pur_base.specs.Facts.{Facts};
ghost use Rattle.pur_base.specs.Visible.{is_elided, objects};
ghost use Rattle.pyramid.specs.Layers.{facts_in};
ghost use Rattle.object_table.specs.Objects.{AreVisible, Objects};

/// The visible objects are those of the facts of all tables, where the elided ids are those of its elisions and all ids are below the next one.
pub fn laws_of_objects()
    ensures { (facts : Facts) (next : ℕ) (t : Objects) → facts.objects ≡ facts_in t.facts → next ≤ 2 ^ 64 → All (λ f. f.object.0 < next) facts.objects
        → AreVisible (is_elided facts.elisions table.Object) t → t.visible ≡ objects facts next }
{}
