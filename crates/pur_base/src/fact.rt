ghost use Rattle.std.specs.Prelude.{◌≡◌, ℕ, Bool, Option};
ghost use Rattle.pur_base.specs.Keys.{key_of, id_of, IsTransitive};

use crate::facts::{AddressFact, ElisionFact, MediumFact, ObjectFact, SegmentFact, Target};
use crate::ids::Seq;

/// What an id counts in a key.
const KEY_BASE: u128 = 1 << 64;

/// A fact of a table: an immutable tuple with a sequence number. The facts of a table are ordered by their keys.
pub trait Fact: Copy {
    /// An id, and below it a second number of 64 bits.
    ghost key: { Self → ℕ };

    /// The sequence number.
    ghost number: { Self → ℕ };

    /// Whether it says that nothing begins at its key.
    ghost empty: { Self → Bool };

    /// Whether another fact says all that it says.
    ghost within: { Self → Self → Bool };

    /// The id of the segment that it points to, if it points to one.
    ghost pointed: { Self → Option ℕ };

    /// The key as one number: the id times 2^64, and the second number.
    fn key(&self) -> u128
        ensures { result ≡ key self.now };

    /// The id, by which facts are elided.
    fn id(&self) -> u64
        ensures { result ≡ id_of (key self.now) };

    /// The sequence number. Of two facts of one key the one with the greater number counts.
    fn seq(&self) -> Seq
        ensures { result.0 ≡ number self.now };

    /// Whether it says that nothing begins at its key.
    fn is_empty(&self) -> bool
        ensures { result ≡ empty self.now };

    /// The id of the segment that it points to, if it points to one, as an address does that is stored.
    fn pointed(&self) -> Option<u64>
        ensures { result ≡ pointed self.now };

    /// Whether the other fact says all that this one says, as a wider elision of the same table does.
    fn lies_in(&self, other: &Self) -> bool
        ensures { result ≡ within self.now other.now };

    ghost within_is_transitive: { IsTransitive within };
}

/// The key of an id and a second number.
fn joined(id: u64, second: u64) -> u128
    ensures { result ≡ key_of id second }
{
    u128::from(id) * KEY_BASE + u128::from(second)
}

impl Fact for ObjectFact {
    ghost use Rattle.std.specs.Prelude.{None};
    ghost use Rattle.pur_base.specs.Facts.{apart, never, object_key};
    ghost use Rattle.pur_base.specs.FactLaws.{apart_is_transitive};

    ghost key = { object_key };

    ghost number = { λ f. f.seq.0 };

    ghost empty = { never };

    ghost within = { apart };

    ghost pointed = { λ f. None };

    fn key(&self) -> u128 {
        joined(self.object.0, 0)
    }

    fn id(&self) -> u64 {
        self.object.0
    }

    fn seq(&self) -> Seq {
        self.seq
    }

    fn is_empty(&self) -> bool {
        false
    }

    fn pointed(&self) -> Option<u64> {
        None
    }

    fn lies_in(&self, _other: &ObjectFact) -> bool {
        false
    }

    ghost within_is_transitive = { apart_is_transitive };
}

impl Fact for MediumFact {
    ghost use Rattle.std.specs.Prelude.{None};
    ghost use Rattle.pur_base.specs.Facts.{apart, is_empty_range, medium_key};
    ghost use Rattle.pur_base.specs.FactLaws.{apart_is_transitive};

    ghost key = { medium_key };

    ghost number = { λ f. f.seq.0 };

    ghost empty = { is_empty_range };

    ghost within = { apart };

    ghost pointed = { λ f. None };

    fn key(&self) -> u128 {
        joined(self.medium.0, self.start)
    }

    fn id(&self) -> u64 {
        // Read for its bound alone: below 2^64 it doesn't reach the id.
        let _start = self.start;
        self.medium.0
    }

    fn seq(&self) -> Seq {
        self.seq
    }

    fn is_empty(&self) -> bool {
        self.end == self.start
    }

    fn pointed(&self) -> Option<u64> {
        None
    }

    fn lies_in(&self, _other: &MediumFact) -> bool {
        false
    }

    ghost within_is_transitive = { apart_is_transitive };
}

impl Fact for AddressFact {
    ghost use Rattle.pur_base.specs.Facts.{address_key, apart, never, pointed_of};
    ghost use Rattle.pur_base.specs.FactLaws.{apart_is_transitive};

    ghost key = { address_key };

    ghost number = { λ f. f.seq.0 };

    ghost empty = { never };

    ghost within = { apart };

    ghost pointed = { λ f. pointed_of f.target };

    fn key(&self) -> u128 {
        joined(self.medium.0, u64::from(self.sector))
    }

    fn id(&self) -> u64 {
        // Read for its bound alone: below 2^64 it doesn't reach the id.
        let _sector = self.sector;
        self.medium.0
    }

    fn seq(&self) -> Seq {
        self.seq
    }

    fn is_empty(&self) -> bool {
        false
    }

    fn pointed(&self) -> Option<u64> {
        match self.target {
            Target::Stored(at) => Some(at.segment.0),
            Target::Zero => None,
        }
    }

    fn lies_in(&self, _other: &AddressFact) -> bool {
        false
    }

    ghost within_is_transitive = { apart_is_transitive };
}

impl Fact for SegmentFact {
    ghost use Rattle.std.specs.Prelude.{None};
    ghost use Rattle.pur_base.specs.Facts.{apart, never, segment_key};
    ghost use Rattle.pur_base.specs.FactLaws.{apart_is_transitive};

    ghost key = { segment_key };

    ghost number = { λ f. f.seq.0 };

    ghost empty = { never };

    ghost within = { apart };

    ghost pointed = { λ f. None };

    fn key(&self) -> u128 {
        joined(self.segment.0, 0)
    }

    fn id(&self) -> u64 {
        self.segment.0
    }

    fn seq(&self) -> Seq {
        self.seq
    }

    fn is_empty(&self) -> bool {
        false
    }

    fn pointed(&self) -> Option<u64> {
        None
    }

    fn lies_in(&self, _other: &SegmentFact) -> bool {
        false
    }

    ghost within_is_transitive = { apart_is_transitive };
}

impl Fact for ElisionFact {
    ghost use Rattle.std.specs.Prelude.{None};
    ghost use Rattle.pur_base.specs.Facts.{elision_key, is_narrower, never};
    ghost use Rattle.pur_base.specs.FactLaws.{narrower_is_transitive};

    ghost key = { elision_key };

    ghost number = { λ f. f.seq.0 };

    ghost empty = { never };

    ghost within = { is_narrower };

    ghost pointed = { λ f. None };

    fn key(&self) -> u128 {
        joined(self.first, u64::from(self.table.tag()))
    }

    fn id(&self) -> u64 {
        self.first
    }

    fn seq(&self) -> Seq {
        self.seq
    }

    fn is_empty(&self) -> bool {
        false
    }

    fn pointed(&self) -> Option<u64> {
        None
    }

    fn lies_in(&self, other: &ElisionFact) -> bool {
        other.table == self.table && other.first <= self.first && self.last <= other.last
    }

    ghost within_is_transitive = { narrower_is_transitive };
}
