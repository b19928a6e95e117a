ghost use Rattle.std.specs.Prelude.{List, ℕ, Option, Some, None, OnOk, OnErr};
ghost use Rattle.pur_base.specs.declared.ids.SegmentId.{SegmentId};
ghost use Rattle.pur_base.specs.declared.place.Location.{Location};

use crate::ids::SegmentId;
use crate::limits::SLOTS_MAX;
use crate::place::Location;
use crate::sector::Sector;

const SLOTS: usize = SLOTS_MAX as usize;

/// The drives, by slot, for want of which something can't be read.
#[derive(Clone, Copy, PartialEq, Eq)]
pub struct Lost {
    pub drives: [bool; SLOTS],
}

/// Reads sectors that were placed earlier.
pub trait ReadBack {
    /// What a call may read there, if anything, from one state to the next.
    ghost reads: { Self → Location → Option (List ℕ) → Self → Type 0 };

    /// Why a sector of that segment may be lost between two states.
    ghost cause: { Self → Self → SegmentId → Type 0 };

    /// Reads the sector at a location. `Lost` comes only where the drives that it names are the cause.
    fn read_back(&mut self, at: Location, into: &mut Sector) -> Result<(), Lost>
        ensures ok { OnOk result (reads self.old at (Some into.new) self.new) }
        ensures lost { OnErr result (reads self.old at None self.new) }
        ensures caused { OnErr result (cause self.old self.new at.segment) };
}

/// Reads the pages of patches. A page is a sector of eight facts.
pub trait Pages {
    /// What a call may read of a page, if anything, from one state to the next.
    ghost reads: { Self → SegmentId → ℕ → Option (List ℕ) → Self → Type 0 };

    /// Why a page of the patch with that first segment may be lost between two states.
    ghost cause: { Self → Self → SegmentId → Type 0 };

    /// Reads page `n` of the patch with that first segment. `Lost` comes only where the drives that it names are the cause.
    fn page(&mut self, first: SegmentId, n: u32, into: &mut Sector) -> Result<(), Lost>
        ensures ok { OnOk result (reads self.old first n (Some into.new) self.new) }
        ensures lost { OnErr result (reads self.old first n None self.new) }
        ensures caused { OnErr result (cause self.old self.new first) };
}
