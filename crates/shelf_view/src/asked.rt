// What the command line asks for.
use clap::{Arg, ArgAction, Command, Error};
use shelf_look::Asked;
use std::alloc::{AllocError, Global};

/// A flag of that name.
fn flag<'a>(alloc: Global, name: &'a str, help: &'a str) -> Arg<'a> {
    Arg::new(alloc, name)
        .long(name)
        .help(help)
        .action(ArgAction::SetTrue)
}

/// The command line.
fn command<'a>(alloc: Global) -> Result<Command<'a>, AllocError> {
    Command::new(alloc, "shelf_view")
        .version("1")
        .about("Shows what the shelf in the current folder holds, and writes nothing")
        .arg(flag(alloc, "json", "Tell all of it as one JSON object"))?
        .arg(flag(alloc, "objects", "Tell each volume and snapshot too"))
}

/// What these words ask for, the program's name in front of them.
pub fn asked_by<'a>(alloc: Global, words: &'a [String]) -> Result<Asked, Error> {
    let matches = command(alloc)?.try_get_matches_from(words)?;
    Ok(Asked {
        json: matches.get_flag("json"),
        objects: matches.get_flag("objects"),
    })
}
