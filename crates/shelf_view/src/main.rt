//! The program of one who looks: what the shelf in the current folder shows, in words, as a picture and as JSON, and what an opening would make of it.
//! `view_only` passes no write and no sync on to the shelf, whatever it does; `main` lends it the files of the shelf and prints what it tells.
#![tactic(auto)]

mod asked;
mod only;
mod there;

use crate::asked::asked_by;
use crate::only::view_only;
use crate::there::devices_there;
use program_endings::{IN_USE, NO_SHELF, code_of, text_of};
use pur_base::{NoMemory, Status};
use shelf_look::{Asked, ReadOnly, Told};
use std::process::ExitCode;
use std::{env, io};
use world_file::{Files, NoShelf};

/// The program's words, its own name in front. Words that can't be had are a faulty command line, but for want of memory.
fn words_of(rt: &HostRuntime) -> Result<Vec<String>, Status> {
    let mut words = Vec::new(rt.alloc());
    match env::args(rt) {
        Ok(all) => {
            for word in all {
                if words.push(word).is_err() {
                    return Err(Status::Memory);
                }
            }
            Ok(words)
        }
        Err(error) => match error.kind() {
            io::ErrorKind::OutOfMemory => Err(Status::Memory),
            _ => Err(Status::Words),
        },
    }
}

/// Says on standard error why the program ends, and ends it with that exit status.
fn leave(rt: &HostRuntime, code: u8, text: &str) -> ExitCode {
    let _ = eprintln!(rt; "shelf_view: {text}");
    ExitCode::from(code)
}

fn end(rt: &HostRuntime, status: Status) -> ExitCode {
    match status {
        Status::Done => ExitCode::SUCCESS,
        _ => leave(rt, code_of(status), text_of(status)),
    }
}

/// Prints what was told, and ends as it says.
fn tell(rt: &HostRuntime, told: &Told) -> ExitCode {
    match print!(rt; "{}", told.text) {
        Ok(()) => end(rt, told.status),
        Err(_) => end(rt, Status::Sink),
    }
}

/// What these files show, of which reads alone are passed on. They are closed behind it.
fn told_of(rt: &HostRuntime, files: Files, asked: Asked) -> Result<Told, NoMemory> {
    let mut only = ReadOnly::new(files);
    let there = devices_there(rt, only.inner())?;
    view_only(rt.alloc(), &mut only, &there, asked)
}

/// Looks at the shelf of the current folder.
fn run(rt: &HostRuntime, asked: Asked) -> ExitCode {
    match Files::open(rt) {
        Ok(files) => match told_of(rt, files, asked) {
            Ok(told) => tell(rt, &told),
            Err(_) => end(rt, Status::Memory),
        },
        Err(NoShelf::Memory) => end(rt, Status::Memory),
        Err(NoShelf::BadText) => leave(rt, NO_SHELF, "no shelf"),
        Err(NoShelf::InUse) => leave(rt, IN_USE, "in use"),
    }
}

/// Does what the words ask for, or prints why they aren't served: they ask for help, or are faulty.
fn answer(rt: &HostRuntime, words: &[String]) -> ExitCode {
    match asked_by(rt.alloc(), words) {
        Ok(asked) => run(rt, asked),
        Err(error) => {
            let _ = error.print(rt);
            if error.use_stderr() {
                ExitCode::from(code_of(Status::Words))
            } else {
                ExitCode::SUCCESS
            }
        }
    }
}

fn main(rt: HostRuntime) -> ExitCode {
    match words_of(&rt) {
        Ok(words) => answer(&rt, &words),
        Err(status) => end(&rt, status),
    }
}
