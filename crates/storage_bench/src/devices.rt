// The bytes of the input are obeyed on a shelf of files.

use crate::pieces::write_piece;
use crate::segments;
use std::io;
use world::{Failed, Shelf, Source};
use world_file::Files;

/// How much was done, and how much failed.
#[derive(Clone, Copy)]
struct Told {
    done: u64,
    failed: u64,
}

fn obey<S: Shelf>(
    shelf: &mut S,
    asked: u8,
    room: &mut segments::Room,
    done: u64,
) -> Result<(), Failed> {
    match asked {
        b'p' => write_piece(shelf, true, done),
        b'q' => write_piece(shelf, false, done),
        _ => segments::obey(shelf, asked, room),
    }
}

fn obey_all<S: Shelf>(shelf: &mut S, asked: &[u8], room: &mut segments::Room, told: &mut Told) {
    for &byte in asked {
        match obey(shelf, byte, room, told.done) {
            Ok(()) => told.done = told.done.saturating_add(1),
            Err(Failed) => told.failed = told.failed.saturating_add(1),
        }
    }
}

fn serve(files: &mut Files) -> Told {
    let mut told = Told { done: 0, failed: 0 };
    let mut asked = [0; 4096];
    let mut room = segments::room();
    for _ in 0..u64::MAX {
        match files.take(&mut asked) {
            Ok(0) | Err(Failed) => break,
            Ok(n) => obey_all(files, &asked[..n], &mut room, &mut told),
        }
    }
    told
}

/// Obeys each byte of the input, and says how much was done, and how much failed.
pub fn obey_input(rt: &HostRuntime) -> io::Result<()> {
    match Files::open(rt) {
        Ok(mut files) => {
            let told = serve(&mut files);
            println!(rt; "{} done, {} failed", told.done, told.failed)
        }
        Err(_) => println!(rt; "no shelf"),
    }
}
