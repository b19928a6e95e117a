// Scripts, one behind another.
use crate::looping::{Loop, loop_of};
use crate::stage::Stage;
use std::io;
use std::process::ExitCode;

/// Where the script ends whose lines begin there.
fn end_of(lines: &[&str], begin: usize) -> usize {
    for place in begin..lines.len() {
        if lines[place].starts_with("script ") {
            return place;
        }
    }
    lines.len()
}

impl Stage {
    /// Plays the script whose lines stand from one place to another, on new devices, and notes how that goes.
    fn play(&mut self, lines: &[&str], begin: usize, end: usize) -> bool {
        let is_right = self.renew() && self.play_lines(lines, begin, end);
        if is_right {
            self.notes.put("ok");
        } else {
            self.notes.put_number(", line ", self.line as u64);
        }
        is_right
    }

    fn play_lines(&mut self, lines: &[&str], begin: usize, end: usize) -> bool {
        let mut looping = None;
        for place in begin..end.min(lines.len()) {
            if !self.play_line(lines, place, &mut looping) {
                return false;
            }
        }
        self.finish() && (looping.is_none() || self.tell("a loop has no end"))
    }

    /// Plays a line: of a loop it notes the begin, and goes through it at its end.
    fn play_line(&mut self, lines: &[&str], place: usize, looping: &mut Option<Loop>) -> bool {
        match *looping {
            None => {
                *looping = loop_of(lines, place);
                if looping.is_some() {
                    self.finish()
                } else {
                    self.read_line(lines, place)
                }
            }
            Some(begun) => {
                if !is_end(lines, place) {
                    return true;
                }
                *looping = None;
                self.run_loop(lines, begun, place)
            }
        }
    }
}

fn is_end(lines: &[&str], place: usize) -> bool {
    place < lines.len() && lines[place] == "end"
}

/// Plays all scripts, with the status 1 where one went wrong.
fn play_each(rt: &HostRuntime, lines: &[&str], stage: &mut Stage) -> io::Result<ExitCode> {
    let mut are_right = true;
    for place in 0..lines.len() {
        if let Some(name) = lines[place].strip_prefix("script ") {
            are_right &= stage.play(lines, place + 1, end_of(lines, place + 1));
            println!(rt; "{name}: {}", stage.notes.text())?;
        }
    }
    Ok(ExitCode::from(if are_right { 0 } else { 1 }))
}

/// The same, for the lines of a text, on devices that are made for it.
pub fn play_all(rt: &HostRuntime, text: &str) -> io::Result<ExitCode> {
    let lines: Vec<&str> = text.lines().collect(rt.alloc())?;
    match Stage::new(rt.alloc()) {
        Ok(mut stage) => play_each(rt, &lines, &mut stage),
        Err(_) => Ok(ExitCode::from(1)),
    }
}
