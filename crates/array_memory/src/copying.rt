// Objects that a command makes, and that it moves to mediums of their own.
ghost use Rattle.std.specs.Prelude.{◌≡◌, ◌≢◌, ◌+◌, ◌<◌, ◌≤◌, ◌++◌, ◌∷◌, [], All, Contains, map};
ghost use Rattle.pur_base.specs.declared.facts.ObjectFact.{ObjectFact};
ghost use Rattle.boot_codec.specs.Record.{AreNext};
ghost use Rattle.fact_codec.specs.declared.limits.TheConstants.{NUMBER_LIMIT};
ghost use Rattle.object_table.specs.Objects.{with_medium};
ghost use Rattle.memory_spec.specs.Adding.{HasCreated};
ghost use Rattle.memory_spec.specs.Laws.{IsNextVolume};
ghost use Rattle.memory_spec.specs.Numbers.{ranges_beside};
ghost use Rattle.command_spec.specs.Deriving.{around as ranges_around, clone_of, copy_of, moved, snapshot_of, whole as whole_range};
ghost use Rattle.command_spec.specs.Asked.{AreLeft, HasCopy, IsDerivable, IsFree};
ghost use Rattle.command_spec.specs.Derived.{AddsOnly, IsNextObject, next_past_freeze, next_past_move, next_past_object};
ghost use Rattle.command_spec.specs.Kept.{HasSamePatches};
ghost use Rattle.command_spec.specs.Room.{TakesOnly};

use crate::memory::Memory;
use boot_codec::NextNumbers;
use command_spec::NOTHING;
use medium_table::Range;
use pur_base::{MediumId, Name, ObjectFact, ObjectId, ObjectKind, Seq};

/// A medium leads to all of an object's.
fn whole(medium: MediumId, object: &ObjectFact, seq: Seq) -> Range
    ensures { result ≡ whole_range medium.0 object.now seq.0 }
{
    Range {
        medium,
        start: 0,
        end: u64::from(object.sectors),
        target: object.medium,
        target_start: 0,
        seq,
    }
}

impl Memory {
    /// Adds an object with the next id and number, on a medium that was given or on the next one.
    fn add(&mut self, object: ObjectFact)
        requires next { IsNextObject self.old.memory.next object }
        requires name { All (λ x. x.name ≢ object.name) self.old.objects }
        requires left { AreNext (next_past_object self.old.memory.next object) }
        requires room { 1 ≤ self.old.memory.tables.objects.room }
        requires name_room { 1 ≤ self.old.name_room }
        ensures adds { AddsOnly self.old self.new (record { objects = object ∷ []; ranges = []; next = next_past_object self.old.memory.next object }) }
        ensures visible { self.new.objects ≡ self.old.objects ++ object ∷ [] }
        ensures tables { self.new.memory.tables ≡ record self.old.memory.tables { objects = self.new.memory.tables.objects } }
        ensures room_left { TakesOnly self.old self.new (record NOTHING { objects = 1; names = 1 }) }
    {
        let next = self.next;
        let past = object.medium.0 + 1;
        self.objects.facts().layers();
        if self.objects.add(object).is_err() {
            unreachable!()
        }
        self.objects.facts().layers();
        self.next = NextNumbers {
            object: next.object + 1,
            medium: next.medium.max(past),
            sequence: next.sequence + 1,
            ..next
        };
    }

    /// Gives a visible object the next medium.
    fn move_object(&mut self, id: ObjectId) -> MediumId
        requires there { (x : ObjectFact) × Contains self.old.objects x × (x.object.0 ≡ id.0) }
        requires left { AreNext (next_past_move self.old.memory.next) }
        requires room { 1 ≤ self.old.memory.tables.objects.room }
        ensures medium { result.0 ≡ self.old.memory.next.medium }
        ensures adds { (x : ObjectFact) → Contains self.old.objects x → x.object.0 ≡ id.0
            → AddsOnly self.old self.new (record { objects = moved x self.old.memory.next.medium self.old.memory.next.sequence ∷ []; ranges = []; next = next_past_move self.old.memory.next }) }
        ensures visible { self.new.objects ≡ map (with_medium id.0 (record { 0 = self.old.memory.next.medium }) (record { 0 = self.old.memory.next.sequence })) self.old.objects }
        ensures room_left { TakesOnly self.old self.new (record NOTHING { objects = 1 }) }
    {
        let next = self.next;
        let medium = MediumId(next.medium);
        self.objects.facts().layers();
        if self
            .objects
            .set_medium(id, medium, Seq(next.sequence))
            .is_err()
        {
            unreachable!()
        }
        self.objects.facts().layers();
        self.next = NextNumbers {
            medium: next.medium + 1,
            sequence: next.sequence + 1,
            ..next
        };
        medium
    }

    /// Takes in a range of a medium that was given, with the next number.
    fn lead(&mut self, range: Range)
        requires medium { range.medium.0 < self.old.memory.next.medium }
        requires number { range.seq.0 ≡ self.old.memory.next.sequence }
        requires some { range.start < range.end }
        requires left { self.old.memory.next.sequence + 1 < NUMBER_LIMIT }
        requires room { 1 ≤ self.old.memory.tables.mediums.room }
        ensures adds { AddsOnly self.old self.new (record { objects = []; ranges = range ∷ []; next = record self.old.memory.next { sequence = self.old.memory.next.sequence + 1 } }) }
        ensures objects { self.new.objects ≡ self.old.objects }
        ensures room_left { TakesOnly self.old self.new (record NOTHING { mediums = 1 }) }
    {
        self.mediums.facts.layers();
        if self.mediums.over(&[range]).is_err() {
            unreachable!()
        }
        self.mediums.facts.layers();
        self.next.sequence += 1;
    }

    /// Adds a volume with the next numbers.
    pub(crate) fn create(&mut self, name: Name, sectors: u32)
        requires free { IsFree self.old.objects name sectors }
        requires numbers { AreLeft self.old.memory.next }
        requires room { 1 ≤ self.old.memory.tables.objects.room }
        requires name_room { 1 ≤ self.old.name_room }
        ensures created { (x : ObjectFact) × IsNextVolume self.old.memory x × (x.name ≡ name) × (x.sectors ≡ sectors) × HasCreated self.old.memory self.new.memory x }
        ensures patches { HasSamePatches self.old.memory.tables self.new.memory.tables }
        ensures segments { self.new.segments ≡ self.old.segments }
        ensures elided { self.new.elided ≡ self.old.elided }
        ensures room_left { TakesOnly self.old self.new (record NOTHING { objects = 1; names = 1 }) }
        ensures staged { self.new.memory.staged ≡ self.old.memory.staged }
    {
        let next = self.next;
        self.add(ObjectFact {
            object: ObjectId(next.object),
            kind: ObjectKind::Volume,
            sectors,
            medium: MediumId(next.medium),
            name,
            seq: Seq(next.sequence),
        });
    }

    /// Moves a volume to the next medium, which leads to the one that it had.
    fn freeze(&mut self, volume: &ObjectFact)
        requires there { Contains self.old.objects volume.now }
        requires left { AreNext (next_past_freeze self.old.memory.next) }
        requires room { 1 ≤ self.old.memory.tables.objects.room }
        requires medium_room { 1 ≤ self.old.memory.tables.mediums.room }
        ensures adds { AddsOnly self.old self.new (record {
          objects = moved volume.now self.old.memory.next.medium self.old.memory.next.sequence ∷ [];
          ranges = whole_range self.old.memory.next.medium volume.now (self.old.memory.next.sequence + 1) ∷ [];
          next = next_past_freeze self.old.memory.next;
        }) }
        ensures visible { self.new.objects ≡ map (with_medium volume.now.object.0 (record { 0 = self.old.memory.next.medium }) (record { 0 = self.old.memory.next.sequence })) self.old.objects }
        ensures room_left { TakesOnly self.old self.new (record NOTHING { objects = 1; mediums = 1 }) }
    {
        let medium = self.move_object(volume.object);
        let seq = Seq(self.next.sequence);
        self.lead(whole(medium, volume, seq));
    }

    /// Adds a snapshot of an object.
    pub(crate) fn snapshot(&mut self, name: &Name, new: Name)
        requires derivable { IsDerivable self.old.objects name.now new }
        requires numbers { AreLeft self.old.memory.next }
        requires room { 2 ≤ self.old.memory.tables.objects.room }
        requires medium_room { 1 ≤ self.old.memory.tables.mediums.room }
        requires name_room { 1 ≤ self.old.name_room }
        ensures adds { (x : ObjectFact) → Contains self.old.objects x → x.name ≡ name.now → AddsOnly self.old self.new (snapshot_of self.old.memory.next x new) }
        ensures room_left { TakesOnly self.old self.new (record NOTHING { objects = 2; mediums = 1; names = 1 }) }
    {
        let object = self.object_of(name);
        let next = self.next;
        self.add(ObjectFact {
            object: ObjectId(next.object),
            kind: ObjectKind::Snapshot,
            name: new,
            seq: Seq(next.sequence),
            ..object
        });
        if object.kind == ObjectKind::Volume {
            self.freeze(&object);
        }
    }

    /// Adds a volume that reads as an object.
    pub(crate) fn clone_of(&mut self, name: &Name, new: Name)
        requires derivable { IsDerivable self.old.objects name.now new }
        requires numbers { AreLeft self.old.memory.next }
        requires room { 2 ≤ self.old.memory.tables.objects.room }
        requires medium_room { 2 ≤ self.old.memory.tables.mediums.room }
        requires name_room { 1 ≤ self.old.name_room }
        ensures adds { (x : ObjectFact) → Contains self.old.objects x → x.name ≡ name.now → AddsOnly self.old self.new (clone_of self.old.memory.next x new) }
        ensures room_left { TakesOnly self.old self.new (record NOTHING { objects = 2; mediums = 2; names = 1 }) }
    {
        let object = self.object_of(name);
        if object.kind == ObjectKind::Volume {
            self.freeze(&object);
        }
        let next = self.next;
        let medium = MediumId(next.medium);
        self.add(ObjectFact {
            object: ObjectId(next.object),
            kind: ObjectKind::Volume,
            sectors: object.sectors,
            medium,
            name: new,
            seq: Seq(next.sequence),
        });
        let seq = Seq(self.next.sequence);
        self.lead(whole(medium, &object, seq));
    }

    /// Copies sectors of an object into a volume: the volume moves to a new medium, which leads to what they were.
    pub(crate) fn copy(&mut self, name: &Name, lba: u64, other: &Name, to: u64, count: u64)
        requires copy { HasCopy self.old.objects name.now lba other.now to count }
        requires numbers { AreLeft self.old.memory.next }
        requires room { 2 ≤ self.old.memory.tables.objects.room }
        requires medium_room { 4 ≤ self.old.memory.tables.mediums.room }
        ensures adds { (x y : ObjectFact) → Contains self.old.objects x → x.name ≡ name.now → Contains self.old.objects y → y.name ≡ other.now
            → AddsOnly self.old self.new (copy_of self.old.memory.next x lba y to count) }
        ensures room_left { TakesOnly self.old self.new (record NOTHING { objects = 2; mediums = 4 }) }
    {
        self.kept();
        let source = self.object_of(name);
        let target = self.object_of(other);
        if source.kind == ObjectKind::Volume && source.name != target.name {
            self.freeze(&source);
        }
        let medium = self.move_object(target.object);
        self.lead_around(medium, &source, lba, &target, to, count);
    }

    /// A volume's new medium leads to what the volume had, but for the sectors that are copied.
    fn lead_around(
        &mut self,
        medium: MediumId,
        source: &ObjectFact,
        lba: u64,
        target: &ObjectFact,
        to: u64,
        count: u64,
    )
        requires medium { medium.0 < self.old.memory.next.medium }
        requires some { 1 ≤ count }
        requires within { lba + count ≤ source.now.sectors }
        requires to_within { to + count ≤ target.now.sectors }
        requires left { self.old.memory.next.sequence + 3 < NUMBER_LIMIT }
        requires room { 3 ≤ self.old.memory.tables.mediums.room }
        ensures adds { AddsOnly self.old self.new (record {
          objects = [];
          ranges = ranges_around medium.0 self.old.memory.next.sequence source.now lba target.now to count;
          next = record self.old.memory.next { sequence = self.old.memory.next.sequence + ranges_beside target.now.sectors to count };
        }) }
        ensures objects { self.new.objects ≡ self.old.objects }
        ensures room_left { TakesOnly self.old self.new (record NOTHING { mediums = 3 }) }
    {
        let size = u64::from(target.sectors);
        if 0 < to {
            self.lead(Range {
                medium,
                start: 0,
                end: to,
                target: target.medium,
                target_start: 0,
                seq: Seq(self.next.sequence),
            });
        }
        self.lead(Range {
            medium,
            start: to,
            end: to + count,
            target: source.medium,
            target_start: lba,
            seq: Seq(self.next.sequence),
        });
        if to + count < size {
            self.lead(Range {
                medium,
                start: to + count,
                end: size,
                target: target.medium,
                target_start: to + count,
                seq: Seq(self.next.sequence),
            });
        }
    }
}
