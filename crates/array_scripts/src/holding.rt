// What devices hold: bytes that are looked at or written, the calls that wrote them, and writes that a stop tears.
use crate::devices::{put, read};
use crate::stage::Stage;
use crate::texts::push_same;
use pur_base::{Device, SECTOR_BYTES};
use world_mem::{Call, MemWorld, What};

/// How far a place stands behind the front of its sector.
fn behind_front(at: u64) -> usize {
    (at % SECTOR_BYTES as u64) as usize
}

/// Puts bytes over others.
fn put_over(into: &mut [u8], at: usize, bytes: &[u8]) {
    for place in 0..bytes.len() {
        if let Some(byte) = into.get_mut(at.wrapping_add(place)) {
            *byte = bytes[place];
        }
    }
}

/// Whether these bytes stand at that place.
fn stand_at(bytes: &[u8], at: usize, wanted: &[u8]) -> bool {
    for place in 0..wanted.len() {
        if bytes.get(at.wrapping_add(place)) != Some(&wanted[place]) {
            return false;
        }
    }
    true
}

/// Whether the call writes there.
fn is_write(call: &Call, device: Device, at: u64) -> bool {
    match call {
        Call::On(on, What::Write(place, _)) => *on == device && *place as u64 == at,
        _ => false,
    }
}

/// Which of the calls from that place on is the first that writes there.
fn first_write(calls: &[Call], from: usize, device: Device, at: u64) -> Option<usize> {
    for place in from..calls.len() {
        if is_write(&calls[place], device, at) {
            return Some(place);
        }
    }
    None
}

/// A range of a device.
#[derive(Clone, Copy)]
struct Range {
    device: Device,
    at: usize,
    count: usize,
}

/// What the last call wrote, where that is a write, which isn't synced then.
fn last_write(world: &MemWorld) -> Option<Range> {
    match world.calls().last() {
        Some(Call::On(device, What::Write(at, was))) => Some(Range {
            device: *device,
            at: *at,
            count: was.len(),
        }),
        _ => None,
    }
}

impl Stage {
    /// Reads the sectors in which the bytes of the line stand, or are to stand, at that place.
    fn read_sectors(&mut self, device: Device, at: u64) -> bool {
        let behind = behind_front(at);
        let count = behind
            .saturating_add(self.bytes.len())
            .div_ceil(SECTOR_BYTES);
        self.sectors.clear();
        let is_read = push_same(
            &mut self.sectors,
            0,
            count.saturating_mul(SECTOR_BYTES) as u64,
        ) && read(
            &mut self.world,
            device,
            at.saturating_sub(behind as u64),
            &mut self.sectors,
        );
        is_read || self.tell("no such place, or it doesn't answer")
    }

    /// Writes the bytes of the line, and syncs them.
    pub fn write(&mut self, device: Device, at: u64) -> bool {
        if !self.read_sectors(device, at) {
            return false;
        }
        let behind = behind_front(at);
        put_over(&mut self.sectors, behind, &self.bytes);
        put(
            &mut self.world,
            device,
            at.saturating_sub(behind as u64),
            &self.sectors,
        ) || self.tell("it doesn't answer")
    }

    /// Whether the bytes of the line stand there.
    pub fn holds(&mut self, device: Device, at: u64) -> bool {
        if !self.read_sectors(device, at) {
            return false;
        }
        let behind = behind_front(at);
        if stand_at(&self.sectors, behind, &self.bytes) {
            return true;
        }
        let held = self.sectors.get(behind..).unwrap_or(&[]);
        self.notes.tell_other(held, &self.bytes);
        false
    }

    /// Whether the last run first wrote to one place of a device and later to another one.
    pub fn wrote(&mut self, device: Device, at: u64, later: u64) -> bool {
        let calls = self.world.calls();
        let first = first_write(calls, self.calls_before, device, at);
        let second = first_write(calls, self.calls_before, device, later);
        match (first, second) {
            (Some(first), Some(second)) if first < second => true,
            _ => self.tell("it didn't"),
        }
    }

    /// Leaves of the last call what a stop may leave, where that is a write and all else is synced: each of its bytes is this one.
    pub fn tear(&mut self, byte: u8) -> bool {
        let Some(range) = last_write(&self.world) else {
            return true;
        };
        let Ok(bytes) = vec![in self.alloc; byte; range.count] else {
            return self.tell("no memory");
        };
        put(&mut self.world, range.device, range.at as u64, &bytes)
            || self.tell("it doesn't answer")
    }
}
