//! Random histories of sessions over devices in memory: stops at any call on a device, devices that fail, are pulled and come back, or come back blank,
//! and takeovers that are stopped again. Nothing that was acknowledged may be lost. Its words are a seed and how many histories there are.
//!
//! With a third word, `calls`, it first counts the calls on devices that a new array, an opening and each kind of request make, and prints a row for each,
//! which `bench/calls` shows beside those that docs/ARCHITECTURE.md derives. With the word `trace` and a number it prints each call of so many writes of 64
//! sectors and nothing else, which `bench/writes` makes once more in C.
#![tactic(auto)]

mod counting;
mod counts;
mod devices;
mod engine;
mod history;
mod measured;
mod model;
mod random;
mod request;
mod scenes;
mod text;
mod tracing;
mod volume;

use crate::history::{History, Told, Trouble};
use crate::measured::print_calls;
use crate::tracing::print_trace;
use pur_base::NoMemory;
use std::alloc::Global;
use std::process::ExitCode;
use std::{env, io};

/// The same devices serve so many histories.
const RENEWED: u64 = 64;

/// What is to be tried.
#[derive(Clone, Copy)]
struct Plan {
    seed: u64,
    count: u64,
}

/// What the words ask for.
#[derive(Clone, Copy)]
enum Asked {
    Histories(Plan),
    /// The calls on devices, and then histories.
    CallsAndHistories(Plan),
    /// Each call of so many writes.
    Trace(u16),
    /// Something else.
    Unknown,
}

/// A word behind the program's name.
#[derive(Clone, Copy)]
enum Word {
    Number(u64),
    Calls,
    Trace,
    Other,
    /// There is none.
    End,
}

fn next_word(words: &mut env::Args) -> Word {
    let Some(word) = words.next() else {
        return Word::End;
    };
    match word.as_str() {
        "calls" => Word::Calls,
        "trace" => Word::Trace,
        digits => match digits.parse::<u64>() {
            Ok(number) => Word::Number(number),
            Err(_) => Word::Other,
        },
    }
}

/// A trace of so many writes.
fn trace_of(count: u64) -> Asked {
    if count <= u16::MAX as u64 {
        Asked::Trace(count as u16)
    } else {
        Asked::Unknown
    }
}

/// A plan with the word behind it.
fn asked_by(plan: Plan, word: Word) -> Asked {
    match word {
        Word::End => Asked::Histories(plan),
        Word::Calls => Asked::CallsAndHistories(plan),
        _ => Asked::Unknown,
    }
}

/// The words ask for a trace, or are a seed and how many histories there are.
fn asked_by_words(words: &mut env::Args) -> Asked {
    next_word(words);
    let first = next_word(words);
    let Word::Number(count) = next_word(words) else {
        return Asked::Unknown;
    };
    match first {
        Word::Trace => trace_of(count),
        Word::Number(seed) => asked_by(Plan { seed, count }, next_word(words)),
        _ => Asked::Unknown,
    }
}

/// How the histories ended.
#[derive(Clone, Copy)]
enum Ended {
    Whole(Told),
    /// In a session of one of them.
    Lost { number: u64, session: u64 },
    /// In one of them.
    NoMemory { number: u64 },
}

/// Lets the histories happen, on new devices where the last ones served enough: a world keeps its input and its output.
fn try_all(history: &mut History, plan: Plan) -> Ended {
    for number in 0..plan.count {
        history.restart(plan.seed, number);
        if number % RENEWED == RENEWED - 1 {
            history.renew();
        }
        history.run();
        let session = history.session();
        match history.trouble() {
            None => {}
            Some(Trouble::Lost) => return Ended::Lost { number, session },
            Some(Trouble::Memory) => return Ended::NoMemory { number },
        }
    }
    Ended::Whole(history.told())
}

fn try_plan(alloc: Global, plan: Plan) -> Ended {
    match History::new(alloc, plan.seed) {
        Ok(mut history) => try_all(&mut history, plan),
        Err(NoMemory) => Ended::NoMemory { number: 0 },
    }
}

fn print_told(rt: &HostRuntime, plan: Plan, told: Told) -> io::Result<()> {
    let Plan { seed, count } = plan;
    let Told {
        acknowledged,
        stops,
        failures,
        halts,
        flushed,
        merged,
        flattened,
        full,
    } = told;
    println!(rt;
        "seed {seed}: {count} histories, {flushed} of them with checkpoints, {merged} with merges, {flattened} with flattenings and {full} with no room left, {acknowledged} requests acknowledged, {stops} stops, {failures} devices failed, {halts} sessions halted, nothing lost"
    )
}

/// Says how the histories ended.
fn print_end(rt: &HostRuntime, plan: Plan, ended: Ended) -> io::Result<()> {
    let seed = plan.seed;
    match ended {
        Ended::Whole(told) => print_told(rt, plan, told),
        Ended::Lost { number, session } => {
            println!(rt; "seed {seed}: lost in history {number}, session {session}")
        }
        Ended::NoMemory { number } => println!(rt; "seed {seed}: no memory in history {number}"),
    }
}

fn status_of(ended: Ended) -> u8 {
    match ended {
        Ended::Whole(_) => 0,
        Ended::Lost { .. } => 1,
        Ended::NoMemory { .. } => 2,
    }
}

fn run(rt: &HostRuntime, plan: Plan) -> io::Result<ExitCode> {
    let ended = try_plan(rt.alloc(), plan);
    print_end(rt, plan, ended)?;
    Ok(ExitCode::from(status_of(ended)))
}

fn main(rt: HostRuntime) -> io::Result<ExitCode> {
    let mut words = env::args(&rt)?;
    match asked_by_words(&mut words) {
        Asked::Histories(plan) => run(&rt, plan),
        Asked::CallsAndHistories(plan) => {
            print_calls(&rt)?;
            run(&rt, plan)
        }
        Asked::Trace(count) => {
            print_trace(&rt, count)?;
            Ok(ExitCode::from(0))
        }
        Asked::Unknown => {
            println!(rt; "two numbers are wanted: a seed, and how many histories")?;
            Ok(ExitCode::from(3))
        }
    }
}
