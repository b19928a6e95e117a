// Segments that a script writes, for tables that no session made.
use crate::stage::Stage;
use pur_base::{Place, Places, SegmentId};
use segment_codec::SegmentKind;
use segment_io::{Open, StripeData, are_places};
use world_mem::MemWorld;

/// That unit of slots 0 to 8.
fn places_in(unit: u8) -> Places {
    let mut places = [Place { slot: 0, unit: 3 }; 9];
    for slot in 0..9u8 {
        places[slot as usize] = Place {
            slot,
            unit: u16::from(unit),
        };
    }
    places
}

/// A stripe that begins with these bytes.
fn stripe_of(bytes: &[u8]) -> StripeData {
    let mut stripe = [[0; 4096]; 7];
    for place in 0..bytes.len().min(4096) {
        stripe[0][place] = bytes[place];
    }
    stripe
}

/// Writes a stripe to segment 1 of a kind, in that unit. False where there is no such unit.
fn write_stripe(world: &mut MemWorld, kind: SegmentKind, unit: u8, stripe: &StripeData) -> bool {
    let mut open = Open::new(SegmentId(1), kind, places_in(unit));
    if !are_places(world, open.places()) {
        return false;
    }
    open.append_stripe(stripe, world);
    true
}

impl Stage {
    /// Writes a segment of one stripe, which begins with the bytes of the line.
    pub fn write_segment(&mut self, kind: SegmentKind, unit: u8) -> bool {
        let stripe = stripe_of(&self.bytes);
        write_stripe(&mut self.world, kind, unit, &stripe) || self.tell("no such unit")
    }
}
