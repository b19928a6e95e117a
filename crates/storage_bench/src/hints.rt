// Sectors are hashed one by one and four at a time.

use dedup_index::{Fnv, Hint};
use pur_base::{SECTOR_BYTES, Sector};
use std::alloc::{AllocError, Global};
use std::io;
use std::time::{Clock, Duration, Instant};

/// The sectors, and those of a turn. A turn begins at each sector that so many follow.
const SECTORS: usize = 320;

const TURN_SECTORS: usize = 64;

/// The rounds that are timed, of which the fastest counts.
const ROUNDS: usize = 61;

/// The bytes that are hashed in a round.
const ROUND_BYTES: u128 = ((SECTORS - TURN_SECTORS + 1) * TURN_SECTORS * SECTOR_BYTES) as u128;

/// A round: the sum of its hints, and its time.
#[derive(Clone, Copy, Drop)]
struct Round {
    hints: u64,
    time: Duration,
}

/// The fastest rounds of both ways.
#[derive(Clone, Copy, Drop)]
struct Fastest {
    one: Duration,
    four: Duration,
}

fn made_sectors(alloc: Global) -> Result<Vec<Sector>, AllocError> {
    let mut sectors = Vec::new(alloc);
    for n in 0..SECTORS {
        sectors.push(Sector::filled((n % 256) as u8))?;
    }
    Ok(sectors)
}

fn one_by_one(sectors: &[Sector]) -> u64 {
    let mut hints = 0u64;
    for sector in sectors {
        hints = hints.wrapping_add(Fnv::of(sector));
    }
    hints
}

fn four_at_a_time(sectors: &[Sector]) -> u64 {
    let mut hints = 0u64;
    for four in sectors.chunks_exact(4) {
        let [a, b, c, d] = Fnv::of_four([&four[0], &four[1], &four[2], &four[3]]);
        hints = hints
            .wrapping_add(a)
            .wrapping_add(b)
            .wrapping_add(c)
            .wrapping_add(d);
    }
    hints
}

fn turns_one_by_one(sectors: &[Sector]) -> u64 {
    let mut hints = 0u64;
    for turn in sectors.windows(TURN_SECTORS) {
        hints = hints.wrapping_add(one_by_one(turn));
    }
    hints
}

fn turns_four_at_a_time(sectors: &[Sector]) -> u64 {
    let mut hints = 0u64;
    for turn in sectors.windows(TURN_SECTORS) {
        hints = hints.wrapping_add(four_at_a_time(turn));
    }
    hints
}

fn round_one_by_one(clock: &impl Clock, sectors: &[Sector]) -> io::Result<Round> {
    let start = Instant::now(clock)?;
    let hints = turns_one_by_one(sectors);
    let time = start.elapsed(clock)?;
    Ok(Round { hints, time })
}

fn round_four_at_a_time(clock: &impl Clock, sectors: &[Sector]) -> io::Result<Round> {
    let start = Instant::now(clock)?;
    let hints = turns_four_at_a_time(sectors);
    let time = start.elapsed(clock)?;
    Ok(Round { hints, time })
}

/// The fastest of so many rounds, or `None` where the hints differ.
fn measured(clock: &impl Clock, sectors: &[Sector], rounds: usize) -> io::Result<Option<Fastest>> {
    let (mut one, mut four) = (Duration::MAX, Duration::MAX);
    for _ in 0..rounds {
        let first = round_one_by_one(clock, sectors)?;
        let second = round_four_at_a_time(clock, sectors)?;
        if first.hints != second.hints {
            return Ok(None);
        }
        one = one.min(first.time);
        four = four.min(second.time);
    }
    Ok(Some(Fastest { one, four }))
}

/// Hundredths of a quotient.
pub fn hundredths(over: u128, under: u128) -> u128 {
    over.saturating_mul(100) / under.max(1)
}

pub fn print_hundredths(rt: &HostRuntime, what: &str, number: u128) -> io::Result<()> {
    println!(rt; "{what}: {}.{:02}", number / 100, number % 100)
}

fn print_times(rt: &HostRuntime, fastest: &Fastest) -> io::Result<()> {
    let (one, four) = (fastest.one.as_nanos(), fastest.four.as_nanos());
    print_hundredths(rt, "one by one, GB/s", hundredths(ROUND_BYTES, one))?;
    print_hundredths(rt, "four at a time, GB/s", hundredths(ROUND_BYTES, four))?;
    print_hundredths(rt, "times as fast", hundredths(one, four))
}

/// Says whether the hints of both ways agree, or where it is timed how fast each is.
pub fn measure_hints(rt: &HostRuntime, timed: bool) -> io::Result<()> {
    let sectors = made_sectors(rt.alloc())?;
    let rounds = if timed { ROUNDS } else { 1 };
    match measured(rt, &sectors, rounds)? {
        Some(fastest) if timed => print_times(rt, &fastest),
        Some(_) => println!(rt; "the hints agree"),
        None => println!(rt; "the hints differ"),
    }
}
