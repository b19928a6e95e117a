ghost use Rattle.std.specs.Prelude.{◌≡◌, ℕ, ◌<◌, ◌≤◌, length, slice_index_or};
ghost use Rattle.pur_base.specs.Visible.{is_within};
ghost use Rattle.elision.specs.Ranges.{AreApart};

/// Whether one of the ranges has the id, by a search that halves them.
pub fn is_within(ranges: &[(u64, u64)], id: u64) -> bool
    requires { AreApart ranges.now }
    ensures { result ≡ is_within ranges.now id }
{
    let begun = ranges_begun(ranges, id);
    if begun == 0 {
        return false;
    }
    id <= ranges[begun - 1].1
}

/// How many ranges begin at the id or below it.
fn ranges_begun(ranges: &[(u64, u64)], id: u64) -> usize
    requires { AreApart ranges.now }
    ensures within { result ≤ length ranges.now }
    ensures begun { (i : ℕ) (d : ℕ × ℕ) → i < result → (slice_index_or ranges.now i d).0 ≤ id }
    ensures later { (i : ℕ) (d : ℕ × ℕ) → result ≤ i → i < length ranges.now → id < (slice_index_or ranges.now i d).0 }
{
    let mut low = 0;
    let mut high = ranges.len();
    while low < high {
        let middle = low + (high - low) / 2;
        if ranges[middle].0 <= id {
            low = middle + 1;
        } else {
            high = middle;
        }
    }
    low
}
