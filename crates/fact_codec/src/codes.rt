ghost use Rattle.std.specs.Prelude.{◌≡◌, ◌≢◌, IfSome, IfNone};
ghost use Rattle.fact_codec.specs.Fact.{object_code, target_code};
ghost use Rattle.pur_base.specs.declared.facts.ObjectKind.{ObjectKind};

use pur_base::{ObjectKind, Target};

const VOLUME: u8 = 1;

const SNAPSHOT: u8 = 2;

/// The byte of an address that is stored.
pub const STORED: u8 = 1;

/// The byte of an address that reads as zeros.
pub const ZERO: u8 = 2;

/// The byte that stands for an object's kind.
pub fn object_code(kind: ObjectKind) -> u8
    ensures { result ≡ object_code kind }
{
    match kind {
        ObjectKind::Volume => VOLUME,
        ObjectKind::Snapshot => SNAPSHOT,
    }
}

/// The kind that a byte stands for, or `None` where it stands for none.
pub fn object_kind(code: u8) -> Option<ObjectKind>
    ensures some { IfSome result (λ kind. code ≡ object_code kind) }
    ensures none { IfNone result ((kind : ObjectKind) → code ≢ object_code kind) }
{
    match code {
        VOLUME => Some(ObjectKind::Volume),
        SNAPSHOT => Some(ObjectKind::Snapshot),
        _ => None,
    }
}

/// The byte that says whether an address is stored.
pub fn target_code(target: &Target) -> u8
    ensures { result ≡ target_code target.now }
{
    match target {
        Target::Stored(_) => STORED,
        Target::Zero => ZERO,
    }
}
