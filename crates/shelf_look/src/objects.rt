// The objects that the tables show, and what their data segments hold.
ghost use Rattle.std.specs.Prelude.{◌≤◌, length};

use crate::Opening;
use pur_base::{AddressFact, MediumId, NoMemory, ObjectFact, SegmentFact, SegmentId, Target};

/// An object, and how many of its sectors the tables say.
#[derive(Clone, Copy)]
pub struct ObjectSeen {
    pub object: ObjectFact,
    pub stored: u32,
}

/// A data segment, and how many of its sectors a visible address names.
#[derive(Clone, Copy)]
pub struct SegmentSeen {
    pub segment: SegmentFact,
    pub named: u32,
}

/// Which of the objects reads as the medium, if one does.
fn object_of(objects: &[ObjectSeen], medium: MediumId) -> Option<usize> {
    for i in 0..objects.len() {
        if objects[i].object.medium == medium {
            return Some(i);
        }
    }
    None
}

/// Counts the sectors that the addresses say, of each object. Those of one medium stand mostly together, so its object is looked up once.
fn count_stored(objects: &mut [ObjectSeen], addresses: &[AddressFact]) {
    let mut medium = MediumId(0);
    let mut at = None;
    for address in addresses {
        if address.medium != medium {
            medium = address.medium;
            at = object_of(objects, medium);
        }
        if let Some(i) = at {
            if let Some(object) = objects.get_mut(i) {
                object.stored = object.stored.saturating_add(1);
            }
        }
    }
}

/// Where the segments of this id and greater ones begin.
fn start_of(segments: &[SegmentSeen], id: SegmentId) -> usize
    ensures { result ≤ length segments.now }
{
    let mut low = 0;
    let mut high = segments.len();
    while low < high {
        let middle = low + (high - low) / 2;
        if segments[middle].segment.segment.0 < id.0 {
            low = middle + 1;
        } else {
            high = middle;
        }
    }
    low
}

/// Counts the sectors that the addresses name, of each of the segments, which ascend.
fn count_named(segments: &mut [SegmentSeen], addresses: &[AddressFact]) {
    for address in addresses {
        if let Target::Stored(place) = address.target {
            let at = start_of(segments, place.segment);
            if let Some(seen) = segments.get_mut(at) {
                if seen.segment.segment == place.segment {
                    seen.named = seen.named.saturating_add(1);
                }
            }
        }
    }
}

/// Lists the visible objects of an opening, in order of creation, and how many of their sectors the tables say.
fn list_objects(objects: &mut Vec<ObjectSeen>, opening: &Opening) -> Result<(), NoMemory> {
    for i in 0..opening.memory.len() {
        if let Some(object) = opening.memory.at(i) {
            objects.push(ObjectSeen { object, stored: 0 })?;
        }
    }
    count_stored(objects, &opening.visible.addresses);
    Ok(())
}

/// Lists its visible data segments, by ascending id, and how many of their sectors a visible address names.
fn list_segments(segments: &mut Vec<SegmentSeen>, opening: &Opening) -> Result<(), NoMemory> {
    for segment in opening.memory.segments() {
        segments.push(SegmentSeen {
            segment: *segment,
            named: 0,
        })?;
    }
    count_named(segments, &opening.visible.addresses);
    Ok(())
}

/// Lists both.
pub fn list_seen(
    objects: &mut Vec<ObjectSeen>,
    segments: &mut Vec<SegmentSeen>,
    opening: &Opening,
) -> Result<(), NoMemory> {
    list_objects(objects, opening)?;
    list_segments(segments, opening)
}
