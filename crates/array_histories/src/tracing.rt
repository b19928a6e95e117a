// Each call on a device of a session with many writes, a line a call.
use crate::engine::{init_on, play};
use crate::text::Text;
use pur_base::{Device, NoMemory};
use std::alloc::Global;
use std::io;
use world_mem::{Call, MemWorld, What};

/// The drives of the shelf, and the units of each: room for what 1,920 writes bring there.
const DRIVES: u8 = 11;

const UNITS: u16 = 256;

/// The sectors of a write, and how many writes lie beside each other in the volume: then they begin again at its front.
const COUNT: u16 = 64;

const BESIDE: u16 = 64;

/// A create and so many writes, as `bench/writes/client.c` asks for them.
fn writes(alloc: Global, count: u16) -> Text {
    let mut input = Text::new(alloc);
    input.put("create a 4096\n");
    for n in 0..count {
        input.put_number("write a ", u64::from(n % BESIDE * COUNT));
        input.put_number(" ", u64::from(COUNT));
        input.put("\n");
        for _ in 0..COUNT {
            input.put_bytes(&[7; 512]);
        }
    }
    input
}

/// Lets a session with so many writes happen on a new array. False where memory is wanting.
fn write_all(alloc: Global, world: &mut MemWorld, count: u16) -> bool {
    init_on(alloc, world);
    play(alloc, world, writes(alloc, count))
}

/// The letter of a device's kind, and its number: drives and NVRAM devices.
fn name_of(device: Device) -> (char, u8) {
    match device {
        Device::Drive(drive) => ('d', drive.0),
        Device::Nv(nvram) => ('n', nvram.0),
    }
}

/// Its letter, with the place and the size of a write. A read's place isn't recorded. None of what failed.
fn row_of(what: &What) -> Option<(char, usize, usize)> {
    match what {
        What::Write(at, was) => Some(('w', *at, was.len())),
        What::Sync(_) => Some(('s', 0, 0)),
        What::Read => Some(('r', 0, 0)),
        _ => None,
    }
}

fn print_call(rt: &HostRuntime, device: Device, what: &What) -> io::Result<()> {
    let (kind, number) = name_of(device);
    match row_of(what) {
        Some((letter, at, size)) => println!(rt; "{letter} {kind} {number} {at} {size}"),
        None => println!(rt; "failed"),
    }
}

/// The calls behind the opening, which ends where input is taken. A reply is a line too.
fn print_calls(rt: &HostRuntime, calls: &[Call]) -> io::Result<()> {
    let mut is_open = false;
    for call in calls {
        match call {
            Call::On(device, what) => {
                if is_open {
                    print_call(rt, *device, what)?;
                }
            }
            Call::Take(_) => is_open = true,
            Call::Give(_) => println!(rt; "reply")?,
        }
    }
    Ok(())
}

/// Prints the calls of so many writes.
pub fn print_trace(rt: &HostRuntime, count: u16) -> io::Result<()> {
    let alloc = rt.alloc();
    if let Ok(mut world) = MemWorld::new(alloc, DRIVES, UNITS, Vec::new(alloc)) {
        if write_all(alloc, &mut world, count) {
            return print_calls(rt, world.calls());
        }
    }
    println!(rt; "no memory")
}
