ghost use Rattle.std.specs.Prelude.{◌≡◌};
ghost use Rattle.table_soundness.specs.Faults.{first_false};

use pur_base::Table;

/// The first table whose answer is `false`.
pub fn first_false(
    objects: bool,
    mediums: bool,
    addresses: bool,
    segments: bool,
    elisions: bool,
) -> Option<Table>
    ensures { result ≡ first_false objects mediums addresses segments elisions }
{
    if !objects {
        Some(Table::Object)
    } else if !mediums {
        Some(Table::Medium)
    } else if !addresses {
        Some(Table::Address)
    } else if !segments {
        Some(Table::Segment)
    } else if !elisions {
        Some(Table::Elision)
    } else {
        None
    }
}
