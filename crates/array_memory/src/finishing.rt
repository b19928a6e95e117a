ghost use Rattle.std.specs.Prelude.{◌≡◌, ◌≤◌, ◌+◌, ◌++◌, filter, length, not, OnOk};
ghost use Rattle.pur_base.specs.Visible.{is_within};
ghost use Rattle.elision.specs.Ranges.{ranges_of};
ghost use Rattle.pyramid.specs.Layers.{patch_facts};
ghost use Rattle.table_plan.specs.Planned.{IsPlanned};
ghost use Rattle.array_memory.specs.Eliding.{eliding_by};
ghost use Rattle.array_memory.specs.Plan.{after_plan, units_of, with_patch_rooms, HasNoLessPatchRoom, HasRoomAgain, HasRoomForPatches, IsPlanOf, IsSameMemory};

use crate::memory::Memory;
use crate::plan::Plan;
use command_spec::LOG_ROOM;
use pur_base::{NoMemory, Table};

impl Memory {
    /// Reserves room for a patch more of each table, for so many more visible segments, and for the names of a whole log.
    /// Nothing else changes, whatever is answered.
    pub fn reserve_for_plan(&mut self, segments: usize) -> Result<(), NoMemory>
        ensures room { OnOk result (HasRoomForPatches self.new segments) }
        ensures room_left { HasNoLessPatchRoom self.old self.new }
        ensures rest { self.new ≡ with_patch_rooms self.old self.new }
    {
        self.objects.reserve(LOG_ROOM.names)?;
        self.objects.reserve_patch()?;
        self.mediums.facts.reserve_patch()?;
        self.addresses.facts.reserve_patch()?;
        self.segments.reserve_patch()?;
        self.segments.reserve(segments)?;
        self.elisions.reserve_patch()?;
        Ok(())
    }

    /// Makes memory what the plan says: what it elides is gone, each table is flushed, nothing is staged, and the next numbers are its own. It takes no memory.
    pub fn finish(&mut self, plan: Plan)
        requires { IsPlanOf self.old plan }
        ensures planned { IsPlanned (eliding_by self.old.memory plan.eliding) self.new.memory plan.placing.flags.items (patch_facts plan.placing.newest) (units_of plan) }
        ensures memory { IsSameMemory (after_plan self.old.memory plan) self.new.memory }
        ensures objects { self.new.objects ≡ self.old.objects }
        ensures segments { self.new.segments ≡ filter (λ d. not (is_within (ranges_of plan.eliding.elided Table.Segment) d.segment.0)) self.old.segments ++ plan.segments.items }
        ensures elided { self.new.elided ≡ plan.eliding.elided }
        ensures room { HasRoomAgain self.old self.new }
        ensures visible_room { self.old.segment_room ≤ self.new.segment_room + length plan.segments.items }
    {
        let Plan {
            eliding,
            segments,
            objects,
            mediums,
            addresses,
            segment_facts,
            elisions,
            next,
            witnesses,
            ..
        } = plan;
        self.objects.put_flushed(objects);
        self.mediums.facts.put_flushed(mediums);
        self.addresses.facts.put_instead(addresses);
        self.segments
            .remove_elided(eliding.elided.ranges(Table::Segment));
        self.segments.put_with(&segments, segment_facts);
        self.elisions.put_instead(elisions);
        self.elided = eliding.elided;
        self.staged.clear();
        self.next = next;
        self.witnesses = witnesses;
    }
}
