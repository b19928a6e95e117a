// What a script works on, and what is told of it.
use crate::devices::{DRIVES, UNITS};
use crate::notes::Notes;
use pur_base::{NoMemory, Status};
use std::alloc::Global;
use world_mem::MemWorld;

/// How a session is to end.
#[derive(Clone, Copy)]
pub enum End {
    With(Status),
    /// It is stopped behind so many calls on devices.
    Stopped(u64),
    /// It makes no more calls than these, and ends well.
    Within(u64),
}

/// What a view is asked, and what it is to tell besides.
#[derive(Clone, Copy)]
pub struct Viewing {
    pub is_json: bool,
    /// A device that isn't there.
    pub absent: Option<u8>,
    pub status: Status,
}

/// What is run once its input and what is wanted of it are read.
#[derive(Clone, Copy)]
pub enum Run {
    Nothing,
    Making(Status),
    Session(End),
    View(Viewing),
}

/// What a script works on: devices in memory, and what it has said of the session that comes.
#[derive(Drop)]
pub struct Stage {
    pub alloc: Global,
    pub world: MemWorld,
    /// Stands in for the world while a session has that.
    pub spare: Option<MemWorld>,
    /// The line that is read, counted from 1.
    pub line: usize,
    /// The loop's number.
    pub n: u64,
    /// Whether the calls are kept, since what they do is taken back.
    pub is_kept: bool,
    /// How many calls were kept before the last run.
    pub calls_before: usize,
    pub run: Run,
    /// Where that stands.
    pub run_line: usize,
    pub input: Vec<u8>,
    /// What it is to give.
    pub wanted: Vec<u8>,
    /// What it may give in place of that.
    pub other: Vec<u8>,
    pub has_other: bool,
    /// The bytes that a line names, and sectors that are read.
    pub bytes: Vec<u8>,
    pub sectors: Vec<u8>,
    pub notes: Notes,
}

fn blank_world(alloc: Global) -> Result<MemWorld, NoMemory> {
    MemWorld::new(alloc, DRIVES, UNITS, Vec::new(alloc))
}

impl Stage {
    /// Blank devices.
    pub fn new(alloc: Global) -> Result<Stage, NoMemory> {
        let world = blank_world(alloc)?;
        let spare = blank_world(alloc)?;
        Ok(Stage {
            alloc,
            world,
            spare: Some(spare),
            line: 0,
            n: 0,
            is_kept: false,
            calls_before: 0,
            run: Run::Nothing,
            run_line: 0,
            input: Vec::new(alloc),
            wanted: Vec::new(alloc),
            other: Vec::new(alloc),
            has_other: false,
            bytes: Vec::new(alloc),
            sectors: Vec::new(alloc),
            notes: Notes::new(alloc),
        })
    }

    /// Takes new devices, for the next script.
    pub fn renew(&mut self) -> bool {
        self.n = 0;
        self.is_kept = false;
        self.run = Run::Nothing;
        self.forget_run();
        self.notes.clear();
        match blank_world(self.alloc) {
            Ok(world) => {
                self.world = world;
                true
            }
            Err(_) => self.tell("no memory"),
        }
    }

    /// Tells what is wrong.
    pub fn tell(&mut self, words: &str) -> bool {
        self.notes.put(words);
        false
    }

    /// Begins to read what is run.
    pub fn begin(&mut self, run: Run) -> bool {
        self.run = run;
        self.run_line = self.line;
        true
    }

    /// Forgets what was read for a run.
    pub fn forget_run(&mut self) {
        self.input.clear();
        self.wanted.clear();
        self.other.clear();
        self.has_other = false;
    }

    /// Notes how many calls were made and how much was given so far. The calls are forgotten where nothing is taken back.
    pub fn mark(&mut self) -> usize {
        if !self.is_kept {
            self.world.forget();
        }
        self.calls_before = self.world.calls().len();
        self.world.output().len()
    }

    /// Whether an end is the one that is wanted.
    pub fn is_end(&mut self, came: Status, wanted: Status) -> bool {
        if came == wanted {
            return true;
        }
        self.tell("it ended ");
        self.tell(status_word(came));
        false
    }
}

/// The word for a status.
fn status_word(status: Status) -> &'static str {
    match status {
        Status::Done => "done",
        Status::Words => "words",
        Status::NoArray => "no-array",
        Status::Halted => "halted",
        Status::Source => "source",
        Status::Sink => "sink",
        Status::Memory => "memory",
        Status::Cut => "cut",
        Status::InputLimit => "input-limit",
        Status::NotBlank => "not-blank",
    }
}

/// The status for a word.
pub fn status_of(word: &str) -> Option<Status> {
    match word {
        "done" => Some(Status::Done),
        "no-array" => Some(Status::NoArray),
        "halted" => Some(Status::Halted),
        "source" => Some(Status::Source),
        "sink" => Some(Status::Sink),
        "cut" => Some(Status::Cut),
        "not-blank" => Some(Status::NotBlank),
        _ => None,
    }
}
