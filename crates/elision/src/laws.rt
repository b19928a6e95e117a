ghost use Rattle.std.specs.Prelude.{◌≡◌, ℕ, ◌+◌, ◌-◌, ◌<◌, ◌≤◌, not, List, All, length, count_by};
ghost use Rattle.std.specs.List.{range_with_len};
ghost use Rattle.pur_base.specs.Visible.{is_within};
ghost use Rattle.elision.specs.Ranges.{AreApart};

/// Ranges of ids from 1 on and below the next one are at most as many as the ids that are left, and one.
pub fn laws_of_ranges()
    ensures few { (ranges : List (ℕ × ℕ)) (next : ℕ) → AreApart ranges → All (λ r. 1 ≤ r.0) ranges → All (λ r. r.1 < next) ranges
        → length ranges ≤ count_by (λ id. not (is_within ranges id)) (range_with_len 1 (next - 1)) + 1 }
{}
