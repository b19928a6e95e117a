ghost use Rattle.std.specs.Prelude.{◌≡◌, ◌+◌, ◌-◌, ◌<◌, ◌≤◌, ◌^◌};
ghost use Rattle.medium_table.specs.Ranges.{emptied, rest_of};

use pur_base::{MediumFact, MediumId, Seq};

/// That nothing begins where the range began.
pub fn emptied(range: &MediumFact, seq: Seq) -> MediumFact
    ensures { result ≡ emptied range.now seq.0 }
{
    MediumFact {
        medium: range.medium,
        start: range.start,
        end: range.start,
        target: MediumId(0),
        target_start: 0,
        seq,
    }
}

/// What is left of a range from there on.
pub fn rest_of(range: &MediumFact, to: u64, seq: Seq) -> MediumFact
    requires order { range.now.start ≤ to }
    requires fits { range.now.target_start + (to - range.now.start) < 2 ^ 64 }
    ensures { result ≡ rest_of range.now to seq.0 }
{
    MediumFact {
        medium: range.medium,
        start: to,
        end: range.end,
        target: range.target,
        target_start: range.target_start + (to - range.start),
        seq,
    }
}
