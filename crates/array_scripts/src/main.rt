//! Plays scripts of whole sessions over devices in memory: what is asked, which devices fail or are gone, where a session is stopped, and what it and the
//! next ones give. It prints a line for each script of its input, and where one goes wrong the line at which it does, what came and what was wanted.
//! `docs/CONTRIBUTING.md` has its language.
#![tactic(auto)]

mod commands;
mod devices;
mod doing;
mod holding;
mod looping;
mod notes;
mod numbers;
mod playing;
mod running;
mod segments;
mod stage;
mod texts;
mod undoing;
mod viewing;

use crate::playing::play_all;
use std::io;
use std::process::ExitCode;

fn main(rt: HostRuntime) -> io::Result<ExitCode> {
    let text = io::read_to_string(rt.alloc(), rt.stdin())?;
    play_all(&rt, text.as_str())
}
