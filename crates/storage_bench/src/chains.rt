// A run of sectors is read through chains of mediums, and the mediums of a long chain are reached.
ghost use Rattle.std.specs.Prelude.{◌≤◌, IfOk, OnOk, ◌+◌, ◌<◌};
ghost use Rattle.storage_bench.specs.Links.{AreLinks, IsChain};

use crate::hints::{hundredths, print_hundredths};
use crate::tables::{BATCH, Draws, PATCHES, Start, made_run, made_table, no_memory, put_run};
use address_table::AddressTable;
use chain_reads::resolve;
use elision::Elided;
use medium_table::{MediumTable, Range};
use pur_base::{AddressFact, MediumId, NoMemory, REQUEST_SECTORS, Seq, Table, Target};
use pyramid::key_of;
use std::alloc::Global;
use std::io;
use std::time::{Clock, Duration, Instant};

/// The links of the chain.
const LINKS: u64 = 10_000;

/// The medium that the chain ends in, which says a run itself. What the smaller ones say is drawn.
const LAST: u64 = 9;

/// The sectors of the run.
const END: u64 = 64;

/// Through how many mediums in front of the last one the run is read.
const DEPTHS: [u64; 3] = [1, 16, 256];

/// The look-ups of a round.
const LOOKUPS: u64 = 8192;

/// The rounds that are timed, of which the fastest counts.
const ROUNDS: usize = 31;

/// What the mediums of a chain say.
#[derive(Drop)]
struct Chain {
    mediums: MediumTable,
    addresses: AddressTable,
    elided: Elided,
}

/// A round: how much was found, and its time.
#[derive(Clone, Copy)]
struct Round {
    found: u64,
    time: Duration,
}

/// Leads the next medium to the one below it.
fn link(mediums: &mut MediumTable, number: u64) -> Result<(), NoMemory>
    requires number { number < LINKS }
    requires links { AreLinks number mediums.old.facts }
    ensures { OnOk result (AreLinks (number + 1) mediums.new.facts) }
{
    mediums.over(&[Range {
        medium: MediumId(LAST + number + 1),
        start: 0,
        end: END,
        target: MediumId(LAST + number),
        target_start: 0,
        seq: Seq(number),
    }])?;
    Ok(())
}

fn linked(alloc: Global) -> Result<MediumTable, NoMemory>
    ensures { IfOk result (λ t. AreLinks LINKS t.facts) }
{
    let mut mediums = MediumTable::new(alloc, LINKS as usize)?;
    for number in 0..LINKS {
        link(&mut mediums, number)?;
    }
    Ok(mediums)
}

/// Four patches and 6,144 unflushed facts of addresses, and a run of the last medium.
fn said(clock: &impl Clock, alloc: Global, draws: &mut Draws) -> io::Result<AddressTable> {
    let (mut table, _) = made_table(clock, alloc, draws)?;
    let start = Start {
        medium: LAST,
        sector: 0,
    };
    let next = 1 + (PATCHES + 1) * BATCH;
    let run = made_run(alloc, start, next).map_err(no_memory)?;
    put_run(clock, &mut table, &run, next)?;
    Ok(AddressTable::from_facts(table))
}

fn chain_of(alloc: Global, addresses: AddressTable) -> Result<Chain, NoMemory>
    ensures { IfOk result IsChain }
{
    let mediums = linked(alloc)?;
    Ok(Chain {
        mediums,
        addresses,
        elided: Elided::new(alloc),
    })
}

/// Reads the run through so many mediums, and says how many are on the way, the last one among them, if it is found.
fn read(chain: &Chain, depth: u64, out: &mut [Option<Target>; REQUEST_SECTORS]) -> u64
    requires chain { IsChain chain.now }
    requires depth { depth ≤ LINKS }
{
    resolve(
        &chain.mediums,
        &chain.addresses,
        &chain.elided,
        MediumId(LAST + depth),
        0,
        out,
    );
    match out[REQUEST_SECTORS - 1] {
        Some(_) => depth + 1,
        None => 0,
    }
}

/// Makes a step from a medium, and says whether a range has its first sector.
fn step(chain: &Chain, medium: MediumId) -> bool
    requires { IsChain chain.now }
{
    chain
        .mediums
        .step(medium, 0, chain.elided.ranges(Table::Medium))
        .is_some()
}

/// Looks the run up in a medium by one walk, and makes a step. It says whether either found something.
fn look_up(
    chain: &Chain,
    medium: MediumId,
    run: &mut [Option<AddressFact>; REQUEST_SECTORS],
) -> bool
    requires { IsChain chain.now }
{
    chain
        .addresses
        .span(medium, 0, chain.elided.ranges(Table::Address), run);
    step(chain, medium) || run[REQUEST_SECTORS - 1].is_some()
}

/// The same by a range of the table, which takes memory.
fn look_up_range(chain: &Chain, alloc: Global, medium: MediumId) -> io::Result<bool>
    requires { IsChain chain.now }
{
    let from = key_of(medium.0, 0);
    let to = key_of(medium.0, REQUEST_SECTORS as u64 - 1);
    let elided = chain.elided.ranges(Table::Address);
    let run = chain
        .addresses
        .facts
        .range(alloc, from, to, elided)
        .map_err(no_memory)?;
    Ok(step(chain, medium) || run.len() == REQUEST_SECTORS)
}

/// Looks the run up in each medium that a read goes through, and says in how many something was found.
fn look_up_all(chain: &Chain, depth: u64, run: &mut [Option<AddressFact>; REQUEST_SECTORS]) -> u64
    requires chain { IsChain chain.now }
    requires depth { depth ≤ LINKS }
{
    let mut found = 0u64;
    for i in 0..=depth {
        if look_up(chain, MediumId(LAST + depth - i), run) {
            found = found.saturating_add(1);
        }
    }
    found
}

/// The same by ranges.
fn look_up_ranges(chain: &Chain, alloc: Global, depth: u64) -> io::Result<u64>
    requires chain { IsChain chain.now }
    requires depth { depth ≤ LINKS }
{
    let mut found = 0u64;
    for i in 0..=depth {
        if look_up_range(chain, alloc, MediumId(LAST + depth - i))? {
            found = found.saturating_add(1);
        }
    }
    Ok(found)
}

fn round_of_reads(clock: &impl Clock, chain: &Chain, depth: u64) -> io::Result<Round>
    requires chain { IsChain chain.now }
    requires depth { depth ≤ LINKS }
{
    let mut out = [None; REQUEST_SECTORS];
    let start = Instant::now(clock)?;
    let mut found = 0u64;
    for _ in 0..LOOKUPS / (depth + 1) {
        found = found.saturating_add(read(chain, depth, &mut out));
    }
    let time = start.elapsed(clock)?;
    Ok(Round { found, time })
}

fn round_of_lookups(clock: &impl Clock, chain: &Chain, depth: u64) -> io::Result<Round>
    requires chain { IsChain chain.now }
    requires depth { depth ≤ LINKS }
{
    let mut run = [None; REQUEST_SECTORS];
    let start = Instant::now(clock)?;
    let mut found = 0u64;
    for _ in 0..LOOKUPS / (depth + 1) {
        found = found.saturating_add(look_up_all(chain, depth, &mut run));
    }
    let time = start.elapsed(clock)?;
    Ok(Round { found, time })
}

fn round_of_ranges(
    clock: &impl Clock,
    alloc: Global,
    chain: &Chain,
    depth: u64,
) -> io::Result<Round>
    requires chain { IsChain chain.now }
    requires depth { depth ≤ LINKS }
{
    let start = Instant::now(clock)?;
    let mut found = 0u64;
    for _ in 0..LOOKUPS / (depth + 1) {
        found = found.saturating_add(look_up_ranges(chain, alloc, depth)?);
    }
    let time = start.elapsed(clock)?;
    Ok(Round { found, time })
}

/// The fastest of so many rounds of reads, of as many ranges and steps, and of as many walks and steps, or `None` where they found different things.
fn compared(
    clock: &impl Clock,
    alloc: Global,
    chain: &Chain,
    depth: u64,
    rounds: usize,
) -> io::Result<Option<[u128; 3]>>
    requires chain { IsChain chain.now }
    requires depth { depth ≤ LINKS }
{
    let (mut reads, mut ranges, mut walks) = (Duration::MAX, Duration::MAX, Duration::MAX);
    for _ in 0..rounds {
        let first = round_of_reads(clock, chain, depth)?;
        let second = round_of_ranges(clock, alloc, chain, depth)?;
        let third = round_of_lookups(clock, chain, depth)?;
        if first.found != second.found || first.found != third.found {
            return Ok(None);
        }
        reads = reads.min(first.time);
        ranges = ranges.min(second.time);
        walks = walks.min(third.time);
    }
    Ok(Some([reads.as_nanos(), ranges.as_nanos(), walks.as_nanos()]))
}

fn print_depth(rt: &HostRuntime, depth: u64, times: [u128; 3]) -> io::Result<()>
    requires { depth ≤ LINKS }
{
    let mediums = depth + 1;
    let [reads, ranges, walks] = times;
    let by_ranges = hundredths(reads, ranges);
    let by_walks = hundredths(reads, walks);
    println!(rt;
        "64 sectors through {depth} mediums, in times of {mediums} ranges and steps (at most 1.00): {}.{:02}",
        by_ranges / 100,
        by_ranges % 100
    )?;
    println!(rt;
        "the same in times of {mediums} walks and steps: {}.{:02}",
        by_walks / 100,
        by_walks % 100
    )
}

/// Says whether the run is found through so many mediums, or where it is timed how long that takes.
fn measure_depth(rt: &HostRuntime, chain: &Chain, depth: u64, timed: bool) -> io::Result<()>
    requires chain { IsChain chain.now }
    requires depth { depth ≤ LINKS }
{
    let rounds = if timed { ROUNDS } else { 1 };
    match compared(rt, rt.alloc(), chain, depth, rounds)? {
        Some(times) if timed => print_depth(rt, depth, times),
        Some(_) => println!(rt; "found through {depth} mediums"),
        None => println!(rt; "not found through {depth} mediums"),
    }
}

/// Reaches the mediums of the chain from its first one.
fn reach(clock: &impl Clock, alloc: Global, chain: &Chain) -> io::Result<Round>
    requires { IsChain chain.now }
{
    let from = [MediumId(LAST + LINKS)];
    let start = Instant::now(clock)?;
    let reached = chain
        .mediums
        .reachable(alloc, &from, chain.elided.ranges(Table::Medium))
        .map_err(no_memory)?;
    let time = start.elapsed(clock)?;
    Ok(Round {
        found: reached.len() as u64,
        time,
    })
}

/// Sorts so many drawn ids.
fn sort(clock: &impl Clock, alloc: Global, draws: &mut Draws, count: u64) -> io::Result<Round> {
    let mut ids = drawn_ids(alloc, draws, count).map_err(no_memory)?;
    let start = Instant::now(clock)?;
    ids.sort_unstable_by_key(|id| id.0);
    let time = start.elapsed(clock)?;
    Ok(Round {
        found: ids.len() as u64,
        time,
    })
}

fn drawn_ids(alloc: Global, draws: &mut Draws, count: u64) -> Result<Vec<MediumId>, NoMemory> {
    let mut ids = Vec::new(alloc);
    for _ in 0..count {
        ids.push(MediumId(draws.next()))?;
    }
    Ok(ids)
}

/// Says how many mediums are reached, and where it is timed how long that takes.
fn measure_reach(rt: &HostRuntime, chain: &Chain, draws: &mut Draws, timed: bool) -> io::Result<()>
    requires { IsChain chain.now }
{
    let mut fastest = Duration::MAX;
    let mut sorting = Duration::MAX;
    let mut found = 0;
    for _ in 0..if timed { ROUNDS } else { 1 } {
        let round = reach(rt, rt.alloc(), chain)?;
        found = round.found;
        fastest = fastest.min(round.time);
        sorting = sorting.min(sort(rt, rt.alloc(), draws, round.found)?.time);
    }
    println!(rt; "{found} mediums reached")?;
    if timed {
        println!(rt;
            "to reach them, us (at most 20000): {}",
            fastest.as_nanos() / 1000
        )?;
        let ratio = hundredths(fastest.as_nanos(), sorting.as_nanos());
        print_hundredths(rt, "in times of sorting as many ids", ratio)?;
    }
    Ok(())
}

/// Says what chains read as and reach, and where it is timed how long that takes.
pub fn measure_chains(rt: &HostRuntime, timed: bool) -> io::Result<()> {
    let mut draws = Draws::new();
    let addresses = said(rt, rt.alloc(), &mut draws)?;
    let chain = match chain_of(rt.alloc(), addresses) {
        Ok(chain) => chain,
        Err(wanted) => return Err(no_memory(wanted)),
    };
    for depth in DEPTHS {
        measure_depth(rt, &chain, depth, timed)?;
    }
    measure_reach(rt, &chain, &mut draws, timed)
}
