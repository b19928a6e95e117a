// Targets that stand one behind another.
ghost use Rattle.std.specs.Prelude.{◌≡◌, ◌≢◌, ◌↔◌, ℕ, ◌<◌, ◌≤◌, ◌^◌, IsTrue, length, slice_index_or};
ghost use Rattle.pur_base.specs.declared.limits.TheConstants.{REQUEST_SECTORS};
ghost use Rattle.target_io.specs.Targets.{target_behind};

use pur_base::{Location, Target};

// Whether the target is of the sector so many places behind that location.
fn is_behind(at: Location, places: usize, target: Target) -> bool
    requires { places < 2 ^ 32 }
    ensures { IsTrue result ↔ (target ≡ target_behind at places) }
{
    match target {
        Target::Stored(there) => there.segment == at.segment
            && usize::from(there.index) == usize::from(at.index) + places,
        Target::Zero => false,
    }
}

/// How many targets follow each other from the first on, which stands at that location.
pub fn run_length(at: Location, targets: &[Target]) -> usize
    requires some { 0 < length targets.now }
    requires few { length targets.now ≤ REQUEST_SECTORS }
    requires first { slice_index_or targets.now 0 Target.Zero ≡ Target.Stored at }
    ensures some { 1 ≤ result }
    ensures within { result ≤ length targets.now }
    ensures follow { (j : ℕ) → j < result → slice_index_or targets.now j Target.Zero ≡ target_behind at j }
    ensures longest { result < length targets.now → slice_index_or targets.now result Target.Zero ≢ target_behind at result }
{
    for i in 1..targets.len() {
        if !is_behind(at, i, targets[i]) {
            return i;
        }
    }
    targets.len()
}
