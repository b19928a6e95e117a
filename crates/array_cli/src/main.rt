//! The program of the array: a command in words, requests on standard input, replies on standard output.
//! `array_main` answers by its contract whatever the outside does; `main` lends it the files of the shelf and the standard streams.
#![tactic(auto)]

use array_server::array_main;
use program_endings::{IN_USE, NO_SHELF, code_of, text_of};
use pur_base::Status;
use std::process::ExitCode;
use std::{env, io};
use world_file::{Files, NoShelf};

/// Words that can't be had are a faulty command line, but for want of memory.
fn status_of(error: &io::Error) -> Status {
    match error.kind() {
        io::ErrorKind::OutOfMemory => Status::Memory,
        _ => Status::Words,
    }
}

/// The words behind the program's own name.
fn words_of(rt: &HostRuntime) -> Result<Vec<String>, Status> {
    let mut words = Vec::new(rt.alloc());
    let mut all = env::args(rt).map_err(|error| status_of(&error))?;
    all.next();
    for word in all {
        words.push(word).map_err(|_| Status::Memory)?;
    }
    Ok(words)
}

fn run(rt: &HostRuntime, files: &mut Files) -> Status {
    match words_of(rt) {
        Ok(words) => array_main(rt.alloc(), &words, files),
        Err(status) => status,
    }
}

/// Says on standard error why the program ends, and ends it with that exit status.
fn leave(rt: &HostRuntime, code: u8, text: &str) -> ExitCode {
    let _ = eprintln!(rt; "array_cli: {text}");
    ExitCode::from(code)
}

fn end(rt: &HostRuntime, status: Status) -> ExitCode {
    match status {
        Status::Done => ExitCode::SUCCESS,
        _ => leave(rt, code_of(status), text_of(status)),
    }
}

fn main(rt: HostRuntime) -> ExitCode {
    match Files::open(&rt) {
        Ok(mut files) => {
            let status = run(&rt, &mut files);
            end(&rt, status)
        }
        Err(NoShelf::Memory) => end(&rt, Status::Memory),
        Err(NoShelf::BadText) => leave(&rt, NO_SHELF, "no shelf"),
        Err(NoShelf::InUse) => leave(&rt, IN_USE, "in use"),
    }
}
