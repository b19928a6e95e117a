// Runs: the making of an array, and sessions.
use crate::stage::{End, Run, Stage};
use array_server::array_main;
use pur_base::Status;
use std::alloc::Global;
use std::mem;
use world::World;
use world_mem::{Fused, MemWorld};

/// How the program ends for one word. What is proved of it stays here.
fn ended<W: World>(alloc: Global, word: &str, world: &mut W) -> Status {
    let Ok(word) = String::from_str(alloc, word) else {
        return Status::Memory;
    };
    let mut words = Vec::new(alloc);
    if words.push(word).is_err() {
        return Status::Memory;
    }
    array_main(alloc, &words, world)
}

impl Stage {
    /// Runs what was read, if something was. False where it goes otherwise than is wanted, which is told.
    pub fn finish(&mut self) -> bool {
        let run = self.run;
        let is_right = match run {
            Run::Nothing => true,
            Run::Making(status) => self.make(status),
            Run::Session(end) => self.serve(end),
            Run::View(viewing) => self.look(viewing),
        };
        if !is_right {
            self.line = self.run_line;
        }
        self.run = Run::Nothing;
        self.forget_run();
        is_right
    }

    fn make(&mut self, status: Status) -> bool {
        let before = self.mark();
        let came = ended(self.alloc, "init", &mut self.world);
        self.is_end(came, status) && self.is_given(before)
    }

    fn serve(&mut self, end: End) -> bool {
        let before = self.mark();
        if self.world.feed(&self.input).is_err() {
            return self.tell("no memory");
        }
        let has_ended = match end {
            End::With(status) => self.ends(status),
            End::Stopped(calls) => self.is_stopped(calls),
            End::Within(calls) => self.ends_within(calls),
        };
        has_ended && self.is_given(before)
    }

    fn ends(&mut self, status: Status) -> bool {
        let came = ended(self.alloc, "serve", &mut self.world);
        self.is_end(came, status)
    }

    fn is_stopped(&mut self, calls: u64) -> bool {
        let (_, is_cut) = self.serve_within(calls);
        is_cut || self.tell("it wasn't stopped")
    }

    fn ends_within(&mut self, calls: u64) -> bool {
        let (came, is_cut) = self.serve_within(calls);
        if is_cut {
            return self.tell("it made more calls");
        }
        self.is_end(came, Status::Done)
    }

    /// How a session ends that is cut off behind so many calls on devices, and whether it came to another call.
    fn serve_within(&mut self, calls: u64) -> (Status, bool) {
        let Some(spare) = self.spare.take() else {
            return (Status::Memory, false);
        };
        let mut fused = Fused::new(mem::replace(&mut self.world, spare), calls);
        let came = ended(self.alloc, "serve", &mut fused);
        let is_cut = fused.blown();
        self.spare = Some(mem::replace(&mut self.world, fused.into_inner()));
        (came, is_cut)
    }

    /// Whether one of the outputs that are wanted was given behind so many bytes.
    fn is_given(&mut self, before: usize) -> bool {
        let given = self.world.output().get(before..).unwrap_or(&[]);
        if self.wanted.as_slice() == given || self.has_other && self.other.as_slice() == given {
            return true;
        }
        self.notes.tell_other(given, &self.wanted);
        false
    }
}
