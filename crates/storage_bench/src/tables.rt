// Runs of facts are put into a table of addresses, and ranges are read from it.
ghost use Rattle.std.specs.Prelude.{◌≡◌, ◌+◌, ◌*◌, ◌<◌, ◌≤◌, ◌^◌, [], IfOk, OnOk};
ghost use Rattle.pur_base.specs.Says.{Ascends};
ghost use Rattle.pur_base.specs.Facts.{address_key};
ghost use Rattle.storage_bench.specs.Numbers.{AreAmong, AreBelow};

use pur_base::{AddressFact, Location, MediumId, NoMemory, SegmentId, Seq, Target};
use pyramid::Pyramid;
use std::alloc::Global;
use std::io;
use std::time::{Clock, Duration, Instant};

/// The sectors of a run and of a range.
const RUN_SECTORS: u32 = 64;

/// The runs that fill the room for unflushed facts, of which those from the middle on are timed.
const RUNS: u64 = 96;

const ROOM: usize = 6144;

const HALF: usize = 3072;

/// The sequence numbers of the facts of all these runs.
pub const BATCH: u64 = 6144;

pub const PATCHES: u64 = 4;

/// The turns of reading, and the ranges of a turn. The fastest turn counts.
const TURNS: u64 = 10;

const READS: u64 = 200;

/// A medium's sectors.
const SECTORS: u64 = 100_000;

/// Numbers that look like chance, the same in each run.
#[derive(Drop)]
pub struct Draws {
    state: u64,
}

impl Draws {
    pub fn new() -> Draws {
        Draws { state: 1 }
    }

    pub fn next(&mut self) -> u64 {
        self.state = self
            .state
            .wrapping_mul(6364136223846793005)
            .wrapping_add(1442695040888963407);
        self.state >> 33
    }
}

/// Where a run begins.
#[derive(Clone, Copy)]
pub struct Start {
    pub medium: u64,
    pub sector: u32,
}

/// What was done, and how long it took.
#[derive(Clone, Copy)]
struct Measure {
    count: u64,
    time: Duration,
}

impl Measure {
    fn nothing() -> Measure {
        Measure {
            count: 0,
            time: Duration::ZERO,
        }
    }

    fn with(self, count: u64, time: Duration) -> Measure {
        Measure {
            count: self.count.saturating_add(count),
            time: self.time.saturating_add(time),
        }
    }

    fn nanos_of_each(self, of: u64) -> u128 {
        self.time.as_nanos() / u128::from(of.max(1))
    }
}

pub fn no_memory(_error: NoMemory) -> io::Error {
    io::Error::from(io::ErrorKind::OutOfMemory)
}

fn drawn_start(draws: &mut Draws) -> Start
    ensures { result.sector < SECTORS }
{
    let medium = 1 + draws.next() % 8;
    let sector = (draws.next() % SECTORS) as u32;
    Start { medium, sector }
}

fn key_at(start: Start, more: u32) -> u128
    requires sector { start.sector < SECTORS }
    requires more { more ≤ RUN_SECTORS }
{
    (u128::from(start.medium) << 64) + u128::from(start.sector + more)
}

/// Facts of a run of sectors, the numbers from the first on.
pub fn made_run(alloc: Global, start: Start, first: u64) -> Result<Vec<AddressFact>, NoMemory>
    requires sector { start.sector < SECTORS }
    requires first { first < 2 ^ 40 }
    ensures ascends { IfOk result (λ v. Ascends address_key v.items) }
    ensures numbers { IfOk result (λ v. AreAmong first RUN_SECTORS v.items) }
{
    let mut run = Vec::with_capacity(alloc, RUN_SECTORS as usize)?;
    for i in 0..RUN_SECTORS {
        run.push(AddressFact {
            medium: MediumId(start.medium),
            sector: start.sector + i,
            target: Target::Stored(Location {
                segment: SegmentId(1),
                index: 2,
            }),
            seq: Seq(first + u64::from(i)),
        })?;
    }
    Ok(run)
}

/// Takes in a run, and says how long that took.
pub fn put_run(
    clock: &impl Clock,
    table: &mut Pyramid<AddressFact>,
    run: &[AddressFact],
    first: u64,
) -> io::Result<Duration>
    requires ascends { Ascends address_key run.now }
    requires numbers { AreAmong first RUN_SECTORS run.now }
    requires below { AreBelow first table.old }
    ensures { OnOk result (AreBelow (first + RUN_SECTORS) table.new) }
{
    let start = Instant::now(clock)?;
    match table.insert_run(run) {
        Ok(()) => start.elapsed(clock),
        Err(error) => Err(no_memory(error)),
    }
}

/// Fills the room for unflushed facts with runs.
fn fill(
    clock: &impl Clock,
    alloc: Global,
    table: &mut Pyramid<AddressFact>,
    draws: &mut Draws,
    first: u64,
) -> io::Result<Measure>
    requires first { first < 2 ^ 32 }
    requires below { AreBelow first table.old }
    ensures { OnOk result (AreBelow (first + BATCH) table.new) }
{
    let mut measure = Measure::nothing();
    for i in 0..RUNS {
        let next = first + i * u64::from(RUN_SECTORS);
        let run = made_run(alloc, drawn_start(draws), next).map_err(no_memory)?;
        let is_timed = HALF <= table.unflushed().len();
        let time = put_run(clock, table, &run, next)?;
        if is_timed {
            measure = measure.with(1, time);
        }
    }
    Ok(measure)
}

/// Makes a patch of what isn't flushed.
fn flush(alloc: Global, table: &mut Pyramid<AddressFact>, next: u64) -> Result<(), NoMemory>
    requires { AreBelow next table.old }
    ensures { OnOk result (AreBelow next table.new) }
{
    let patch = table.flushed(alloc)?;
    table.put_flushed(patch);
    Ok(())
}

/// Reads ranges, and says how many sectors were found.
fn read_ranges(
    clock: &impl Clock,
    alloc: Global,
    table: &Pyramid<AddressFact>,
    draws: &mut Draws,
) -> io::Result<Measure> {
    let mut measure = Measure::nothing();
    for _ in 0..READS {
        let from = drawn_start(draws);
        let start = Instant::now(clock)?;
        let found = table
            .range(alloc, key_at(from, 0), key_at(from, RUN_SECTORS - 1), &[])
            .map_err(no_memory)?;
        measure = measure.with(found.len() as u64, start.elapsed(clock)?);
    }
    Ok(measure)
}

/// A table of four patches and as many unflushed facts as there is room for, and the nanoseconds of a run in the fastest filling.
pub fn made_table(
    clock: &impl Clock,
    alloc: Global,
    draws: &mut Draws,
) -> io::Result<(Pyramid<AddressFact>, u128)>
    ensures { IfOk result (λ made. AreBelow (1 + (PATCHES + 1) * BATCH) made.0) }
{
    let mut table = Pyramid::new(alloc, ROOM).map_err(no_memory)?;
    let mut fastest = u128::MAX;
    for i in 0..PATCHES {
        let first = 1 + i * BATCH;
        let put = fill(clock, alloc, &mut table, draws, first)?;
        fastest = fastest.min(put.nanos_of_each(put.count));
        flush(alloc, &mut table, first + BATCH).map_err(no_memory)?;
    }
    let put = fill(clock, alloc, &mut table, draws, 1 + PATCHES * BATCH)?;
    Ok((table, fastest.min(put.nanos_of_each(put.count))))
}

/// How many sectors all turns of reading found, and the nanoseconds of a range in the fastest one.
fn read_turns(
    clock: &impl Clock,
    alloc: Global,
    table: &Pyramid<AddressFact>,
    draws: &mut Draws,
) -> io::Result<(u64, u128)> {
    let mut found = 0u64;
    let mut fastest = u128::MAX;
    for _ in 0..TURNS {
        let read = read_ranges(clock, alloc, table, draws)?;
        found = found.saturating_add(read.count);
        fastest = fastest.min(read.nanos_of_each(READS));
    }
    Ok((found, fastest))
}

/// Says how many sectors were found, and where it is timed how long a run and a range take.
pub fn measure_tables(rt: &HostRuntime, timed: bool) -> io::Result<()> {
    let mut draws = Draws::new();
    let (table, put) = made_table(rt, rt.alloc(), &mut draws)?;
    let (found, read) = read_turns(rt, rt.alloc(), &table, &mut draws)?;
    println!(rt; "{found} sectors found")?;
    if timed {
        println!(rt; "a run of 64 into 3072 to 6144 unflushed facts, ns: {put}")?;
        println!(rt; "a range of 64 over 6144 unflushed facts and 4 patches, ns: {read}")?;
    }
    Ok(())
}
