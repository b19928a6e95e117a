ghost use Rattle.std.specs.Prelude.{◌≡◌, ◌↔◌, ◌≤◌, [], ◌++◌, Some, length, nat_eq, IsTrue, IsFalse, IfOk, OnOk, OnErr, IfSome, IfNone, IsSome, IsNone, IsOk};
ghost use Rattle.std.specs.List.{IsDistinct};
ghost use Rattle.std.specs.Map.{keys_of};
ghost use Rattle.dedup_index.specs.Entries.{location_of, fronted, noted, without_segment, oldest, newer, Misses};

use crate::hint::Hint;
use lru::LruCache;
use pur_base::{INDEX_ENTRIES, Location, NoMemory, ReadBack, Sector, SegmentId};
use std::alloc::Global;
use std::marker::{Model, PhantomData};
use std::num::NonZeroUsize;

/// Where sectors stand, by their hints. Contracts see the entries, the most recently used first.
#[derive(Drop)]
pub struct Index<H: Hint> {
    cache: LruCache<u64, Location>,
    hints: PhantomData<H>,
}

impl<H: Hint> Model for Index<H> {
    ghost use Rattle.std.specs.Prelude.{◌≡◌};
    ghost use Rattle.pur_base.specs.declared.limits.TheConstants.{INDEX_ENTRIES};
    ghost use Rattle.dedup_index.specs.Entries.{Entries};

    ghost Value = { Entries };

    ghost view = { λ i. i.cache.entries };

    ghost invariant = { λ i. i.cache.cap ≡ INDEX_ENTRIES };
}

/// Whether the sector that is read back at a location, into `buffer`, has the same bytes.
fn is_there<P: ReadBack>(sector: &Sector, at: Location, buffer: &mut Sector, from: &mut P) -> bool
    ensures same { IsTrue result → P.reads from.old at (Some sector.now) from.new }
    ensures misses { IsFalse result → Misses P.reads from.old at sector.now buffer.new from.new }
{
    match from.read_back(at, buffer) {
        Ok(()) => buffer.as_bytes() == sector.as_bytes(),
        Err(_) => false,
    }
}

impl<H: Hint> Index<H> {
    /// An empty index, with room for all that it may hold.
    pub fn new(alloc: Global) -> Result<Index<H>, NoMemory>
        ensures { IfOk result (λ index. index ≡ []) }
    {
        let entries = NonZeroUsize::new(INDEX_ENTRIES).unwrap();
        let cache = LruCache::new(alloc, entries)?;
        let hints = PhantomData;
        Ok(Index { cache, hints })
    }

    /// The number of entries. Each hint has at most one.
    pub fn len(&self) -> usize
        ensures len { result ≡ length self.now }
        ensures within { length self.now ≤ INDEX_ENTRIES }
        ensures distinct { IsDistinct nat_eq (keys_of self.now) }
    {
        self.cache.len()
    }

    /// Whether there are no entries.
    pub fn is_empty(&self) -> bool
        ensures { IsTrue result ↔ (self.now ≡ []) }
    {
        self.len() == 0
    }

    /// The location of a hint, whose entry becomes the most recently used.
    fn recall(&mut self, hint: u64) -> Option<Location>
        ensures location { result ≡ location_of hint self.old }
        ensures entries { self.new ≡ fronted hint self.old }
    {
        self.cache.get(&hint).copied()
    }

    /// Where a sector of these bytes stands: at the location of its hint, if it reads back there into `buffer` with the same bytes.
    pub fn find<P: ReadBack>(
        &mut self,
        sector: &Sector,
        buffer: &mut Sector,
        from: &mut P,
    ) -> Option<Location>
        ensures located { IfSome result (λ at. location_of (H.hint sector.now) self.old ≡ Some at) }
        ensures same { IfSome result (λ at. P.reads from.old at (Some sector.now) from.new) }
        ensures missed { IfNone result (IfSome (location_of (H.hint sector.now) self.old) (λ at. Misses P.reads from.old at sector.now buffer.new from.new)) }
        ensures unread { IsNone (location_of (H.hint sector.now) self.old) → (from.new ≡ from.old) × (buffer.new ≡ buffer.old) }
        ensures entries { self.new ≡ fronted (H.hint sector.now) self.old }
    {
        self.find_by(H::of(sector), sector, buffer, from)
    }

    /// `find` by a hint that is known already.
    pub fn find_by<P: ReadBack>(
        &mut self,
        hint: u64,
        sector: &Sector,
        buffer: &mut Sector,
        from: &mut P,
    ) -> Option<Location>
        ensures located { IfSome result (λ at. location_of hint self.old ≡ Some at) }
        ensures same { IfSome result (λ at. P.reads from.old at (Some sector.now) from.new) }
        ensures missed { IfNone result (IfSome (location_of hint self.old) (λ at. Misses P.reads from.old at sector.now buffer.new from.new)) }
        ensures unread { IsNone (location_of hint self.old) → (from.new ≡ from.old) × (buffer.new ≡ buffer.old) }
        ensures entries { self.new ≡ fronted hint self.old }
    {
        let at = self.recall(hint)?;
        if is_there(sector, at, buffer, from) {
            return Some(at);
        }
        None
    }

    /// Notes where a sector stands, which becomes the most recently used entry. An error leaves the index.
    pub fn note(&mut self, sector: &Sector, at: Location) -> Result<(), NoMemory>
        ensures ok { OnOk result (self.new ≡ noted (H.hint sector.now) at self.old) }
        ensures err { OnErr result (self.new ≡ self.old) }
        ensures succeeds { IsSome (location_of (H.hint sector.now) self.old) → IsOk result }
    {
        self.note_by(H::of(sector), at)
    }

    /// `note` by a hint that is known already.
    pub fn note_by(&mut self, hint: u64, at: Location) -> Result<(), NoMemory>
        ensures ok { OnOk result (self.new ≡ noted hint at self.old) }
        ensures err { OnErr result (self.new ≡ self.old) }
        ensures succeeds { IsSome (location_of hint self.old) → IsOk result }
    {
        self.cache.put(hint, at)?;
        Ok(())
    }

    /// Takes out the entries of a segment.
    pub fn forget(&mut self, segment: SegmentId)
        ensures { self.new ≡ without_segment segment self.old }
    {
        for _turn in 0..self.len() {
            self.turn(segment);
        }
    }

    /// The oldest entry goes where it is of the segment, and else becomes the most recently used.
    fn turn(&mut self, segment: SegmentId)
        ensures { self.new ≡ without_segment segment (oldest self.old) ++ newer self.old }
    {
        // It promises that no other entry has the hint.
        let _entries = self.cache.len();
        let Some((hint, at)) = self.cache.peek_lru() else {
            return;
        };
        if at.segment == segment {
            self.cache.pop_lru();
        } else {
            let hint = *hint;
            self.cache.promote(&hint);
        }
    }
}
