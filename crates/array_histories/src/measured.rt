// The sessions whose calls are counted.
use crate::counting::{DeviceCalls, part};
use crate::engine::{init_on, play};
use crate::text::Text;
use pur_base::{Device, NoMemory, NvId};
use std::alloc::Global;
use std::io;
use world_mem::MemWorld;

/// The calls of something.
#[derive(Clone, Copy)]
struct Line {
    name: &'static str,
    calls: DeviceCalls,
}

/// Adds lines for parts of the last session, by their names and numbers. False where memory is wanting.
fn push_lines(world: &MemWorld, parts: &[(&'static str, u64)], lines: &mut Vec<Line>) -> bool {
    for (name, at) in parts {
        let calls = part(world.calls(), *at);
        if lines.push(Line { name: *name, calls }).is_err() {
            return false;
        }
    }
    true
}

/// The most sectors that a request writes.
const COUNT: u64 = 64;

/// As many requests fill the log.
const SLOTS: u64 = 64;

/// A create, a write of 64 sectors, a fill, a zeroing, a snapshot, a clone, a copy, a destruction, a read and a flattening.
fn requests(alloc: Global) -> Text {
    let mut input = Text::new(alloc);
    input.put("create a 64\nwrite a 0 64\n");
    for _ in 0..COUNT {
        input.put_bytes(&[66; 512]);
    }
    input.put(
        "fill a 0 1 1\nzero a 0 1\nsnapshot a s\nclone s t\ncopy t 0 a 0 64\ndestroy t\nread a 0 1\nflatten a\n",
    );
    input
}

/// A checkpoint behind a fill, and one behind a full log of fills of 64 sectors each, and then a merge. What stood in the log before is brought to the drives first.
fn checkpoints(alloc: Global) -> Text {
    let mut input = Text::new(alloc);
    input.put("create b 4097\ncheckpoint\nfill b 4096 1 1\ncheckpoint\n");
    for n in 0..SLOTS {
        input.put_number("fill b ", n * COUNT);
        input.put_number(" ", COUNT);
        input.put(" 1\n");
    }
    input.put("checkpoint\nmerge address 0\n");
    input
}

fn one_fill(alloc: Global) -> Text {
    let mut input = Text::new(alloc);
    input.put("fill a 1 1 2\n");
    input
}

/// How often an NVRAM device with an empty log is called by an opening.
const OPENING: u64 = 3;

const MAKING: [(&'static str, u64); 1] = [("init", 0)];

const FIRST: [(&'static str, u64); 1] = [("the first opening", 0)];

const LATER: [(&'static str, u64); 11] = [
    ("a later opening", 0),
    ("create", 1),
    ("write of 64 sectors", 2),
    ("fill", 3),
    ("zero", 4),
    ("snapshot", 5),
    ("clone", 6),
    ("copy of 64 sectors", 7),
    ("destroy", 8),
    ("read", 9),
    ("flatten", 10),
];

const STORED: [(&'static str, u64); 3] = [
    ("checkpoint behind a fill", 4),
    ("checkpoint behind 64 fills of 64 sectors", 69),
    ("merge of two patches of a segment each", 70),
];

const FAILING: [(&'static str, u64); 1] = [("fill, where an NVRAM device fails", 1)];

/// Adds all lines. False where memory is wanting.
fn push_all(alloc: Global, world: &mut MemWorld, lines: &mut Vec<Line>) -> bool {
    init_on(alloc, world);
    push_lines(world, &MAKING, lines)
        && play(alloc, world, Text::new(alloc))
        && push_lines(world, &FIRST, lines)
        && play(alloc, world, requests(alloc))
        && push_lines(world, &LATER, lines)
        && play(alloc, world, checkpoints(alloc))
        && push_lines(world, &STORED, lines)
        && world.fail(Device::Nv(NvId(1)), OPENING + 1).is_ok()
        && play(alloc, world, one_fill(alloc))
        && push_lines(world, &FAILING, lines)
}

fn measure(alloc: Global, lines: &mut Vec<Line>) -> bool {
    match MemWorld::new(alloc, 11, 64, Vec::new(alloc)) {
        Ok(mut world) => push_all(alloc, &mut world, lines),
        Err(NoMemory) => false,
    }
}

fn print(rt: &HostRuntime, line: &Line) -> io::Result<()> {
    let nvram = line.calls.nvram;
    let drives = line.calls.drives;
    println!(rt;
        "| {} | {} | {} | {} | {} | {} | {} |",
        line.name, nvram.writes, nvram.syncs, nvram.reads, drives.writes, drives.syncs, drives.reads
    )
}

fn print_all(rt: &HostRuntime, lines: &[Line]) -> io::Result<()> {
    println!(rt;
        "| | NVRAM writes | syncs | reads | drive writes | syncs | reads |\n|---|---|---|---|---|---|---|"
    )?;
    for line in lines {
        print(rt, line)?;
    }
    Ok(())
}

/// Prints how many calls a new array, an opening and each kind of request make.
pub fn print_calls(rt: &HostRuntime) -> io::Result<()> {
    let mut lines = Vec::new(rt.alloc());
    if measure(rt.alloc(), &mut lines) {
        print_all(rt, &lines)
    } else {
        println!(rt; "no memory")
    }
}
