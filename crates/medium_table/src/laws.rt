ghost use Rattle.std.specs.Prelude.{◌≡◌, ◌↔◌, ℕ, List};
ghost use Rattle.pur_base.specs.declared.facts.MediumFact.{MediumFact};
ghost use Rattle.pur_base.specs.declared.request.Table.TheVariants as table;
ghost use Rattle.pur_base.specs.Facts.{Facts};
ghost use Rattle.pur_base.specs.Mediums.{IsOver};
ghost use Rattle.pur_base.specs.Visible.{is_within, range, AreElidedRanges};
ghost use Rattle.medium_table.specs.Ranges.{range_from, IsRangeOver};

/// Ranges are what the facts of all tables say, where the elided ids are those of their elided mediums.
pub fn laws_of_ranges()
    ensures ranges { (facts : Facts) (ranges : List (ℕ × ℕ)) (medium start : ℕ) → AreElidedRanges facts.elisions table.Medium ranges
        → range_from facts.mediums (is_within ranges) medium start ≡ range facts medium start }
    ensures over { (facts : Facts) (ranges : List (ℕ × ℕ)) (medium sector : ℕ) (r : MediumFact) → AreElidedRanges facts.elisions table.Medium ranges
        → IsRangeOver facts.mediums (is_within ranges) medium sector r ↔ IsOver facts medium sector r }
{}
