ghost use Rattle.std.specs.Prelude.{◌≡◌, ◌<◌, [], ◌∷◌, ◌++◌, length, slice_index_or, OnOk, OnErr};
ghost use Rattle.boot_codec.specs.Parts.{AreWithin, patches_of};

use pur_base::{Place, Places, SEGMENT_SHARDS};
use std::alloc::{AllocError, Global};
use std::marker::Model;

/// A segment of a patch: its id, and the units that hold it by ascending slot.
#[derive(Clone, Copy, PartialEq, Eq, Drop)]
pub struct PatchSegment {
    pub id: u64,
    pub places: Places,
}

/// A blank segment, as room for one is filled.
impl Default for PatchSegment {
    ghost use Rattle.std.specs.Prelude.{replicate};
    ghost use Rattle.pur_base.specs.declared.limits.TheConstants.{SEGMENT_SHARDS};

    ghost is_default = { λ s. (s.id ≡ 0) × (s.places ≡ replicate SEGMENT_SHARDS (record { slot = 0; unit = 0 })) };

    fn default() -> PatchSegment {
        PatchSegment {
            id: 0,
            places: [Place { slot: 0, unit: 0 }; SEGMENT_SHARDS],
        }
    }
}

/// The segments of a patch, lent by what holds them. Contracts see the list of them.
#[derive(Drop)]
pub struct Segments<'a> {
    items: &'a [PatchSegment],
}

impl<'a> Model for Segments<'a> {
    ghost use Rattle.std.specs.Prelude.{List};
    ghost use Rattle.boot_codec.specs.declared.patch.PatchSegment.{PatchSegment};

    ghost Value = { List PatchSegment };

    ghost view = { λ s. s.items.now };
}

impl<'a> Segments<'a> {
    /// These segments.
    pub fn new(items: &'a [PatchSegment]) -> Segments<'a>
        ensures { result ≡ items.now }
    {
        Segments { items }
    }

    /// The segments, in order.
    pub fn as_slice(&self) -> &'a [PatchSegment]
        ensures { result.now ≡ self.now }
    {
        self.items
    }
}

/// A patch of the index: the tag of its facts, 1 to 5, how many facts it has, and the segments that hold them.
#[derive(Drop)]
pub struct Patch<'a> {
    pub tag: u8,
    pub facts: u32,
    pub segments: Segments<'a>,
}

/// A patch without its segments, and which part of all segments of the record they are.
#[derive(Clone, Copy, Drop)]
pub struct PatchHead {
    pub tag: u8,
    pub facts: u32,
    pub start: usize,
    pub end: usize,
}

/// The patches of a record, by tag, oldest first. Contracts see the list of them.
/// One list holds the segments of all patches, so that no patch needs an allocation of its own.
#[derive(Drop)]
pub struct Patches {
    heads: Vec<PatchHead>,
    segments: Vec<PatchSegment>,
}

impl Model for Patches {
    ghost use Rattle.std.specs.Prelude.{List, length};
    ghost use Rattle.boot_codec.specs.declared.patch.Patch.{Patch};
    ghost use Rattle.boot_codec.specs.Parts.{AreWithin, patches_of};

    ghost Value = { List Patch };

    ghost view = { λ p. patches_of p.segments.items p.heads.items };

    ghost invariant = { λ p. AreWithin (length p.segments.items) p.heads.items };
}

impl Patches {
    /// No patches yet.
    pub fn new(alloc: Global) -> Patches
        ensures { result ≡ [] }
    {
        Patches {
            heads: Vec::new(alloc),
            segments: Vec::new(alloc),
        }
    }

    /// The patches of these heads, each with its part of the segments.
    pub(crate) fn from_parts(heads: Vec<PatchHead>, segments: Vec<PatchSegment>) -> Patches
        requires { AreWithin (length segments.items) heads.items }
        ensures { result ≡ patches_of segments.items heads.items }
    {
        Patches { heads, segments }
    }

    /// Adds a patch at the end. It fails for want of memory only, and changes nothing then.
    pub fn push(&mut self, patch: &Patch<'_>) -> Result<(), AllocError>
        ensures ok { OnOk result (self.new ≡ self.old ++ patch.now ∷ []) }
        ensures err { OnErr result (self.new ≡ self.old) }
    {
        let start = self.segments.len();
        self.segments.extend_from_slice(patch.segments.as_slice())?;
        let end = self.segments.len();
        self.heads.push(PatchHead {
            tag: patch.tag,
            facts: patch.facts,
            start,
            end,
        })?;
        Ok(())
    }

    /// How many patches there are.
    pub fn len(&self) -> usize
        ensures { result ≡ length self.now }
    {
        self.heads.len()
    }

    /// The patch at an index.
    pub fn at(&self, index: usize) -> Patch<'_>
        requires { index < length self.now }
        ensures { result ≡ slice_index_or self.now index result }
    {
        let head = &self.heads[index];
        Patch {
            tag: head.tag,
            facts: head.facts,
            segments: Segments::new(&self.segments[head.start..head.end]),
        }
    }
}
