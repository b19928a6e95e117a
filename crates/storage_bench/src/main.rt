//! What the scripts in bench measure of tables, hints, segments and files, by its words. `tables` puts runs of 64 facts into a table of addresses, reads ranges
//! of 64 sectors from it, and says how many sectors were found. `chains` reads a run through chains of mediums, reaches the mediums of a long chain, and says
//! what was found. `hints` hashes sectors one by one and four at a time, and says whether the hints agree. With
//! `time` these say how long it takes; without it nothing that they print depends on the clock. `shelf` obeys each byte of the input: `w` writes a segment of one
//! stripe on drives 0 to 8 and closes it, `r` writes fifteen stripes in one run, `o` one by one, `p` writes and syncs 4 KiB of drive 0, `q` 64 KiB, `s` reads
//! the 56 sectors of the first stripe, and any other does so with drives 1 and 5 missing. It says how much was done, and how much failed.
#![tactic(auto)]

mod chains;
mod devices;
mod hints;
mod pieces;
mod segments;
mod tables;

use std::{env, io};

/// Which words were given.
#[derive(Clone, Copy)]
struct Words {
    tables: bool,
    chains: bool,
    hints: bool,
    shelf: bool,
    time: bool,
}

fn words_of(rt: &HostRuntime) -> io::Result<Words> {
    let mut asked = Words {
        tables: false,
        chains: false,
        hints: false,
        shelf: false,
        time: false,
    };
    for word in env::args(rt)? {
        match word.as_str() {
            "tables" => asked.tables = true,
            "chains" => asked.chains = true,
            "hints" => asked.hints = true,
            "shelf" => asked.shelf = true,
            "time" => asked.time = true,
            _ => {}
        }
    }
    Ok(asked)
}

fn run(rt: &HostRuntime) -> io::Result<()> {
    let asked = words_of(rt)?;
    if asked.tables {
        tables::measure_tables(rt, asked.time)?;
    }
    if asked.chains {
        chains::measure_chains(rt, asked.time)?;
    }
    if asked.hints {
        hints::measure_hints(rt, asked.time)?;
    }
    if asked.shelf {
        devices::obey_input(rt)?;
    }
    Ok(())
}

fn main(rt: HostRuntime) -> io::Result<()> {
    run(&rt)
}
