ghost use Rattle.std.specs.Prelude.{◌≡◌, ℕ, List};
ghost use Rattle.pur_base.specs.declared.request.Table.TheVariants as table;
ghost use Rattle.pur_base.specs.Facts.{Facts};
ghost use Rattle.pur_base.specs.Visible.{address, is_within, AreElidedRanges};
ghost use Rattle.address_table.specs.Addresses.{target_of};

/// Where a sector stands is what the facts of all tables say, where the ranges are those of their elided mediums.
pub fn laws_of_addresses()
    ensures { (facts : Facts) (ranges : List (ℕ × ℕ)) (medium sector : ℕ) → AreElidedRanges facts.elisions table.Address ranges
        → target_of facts.addresses (is_within ranges) medium sector ≡ address facts medium sector }
{}
