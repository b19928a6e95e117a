// The commands of a script.
use crate::devices::{DRIVES, Devices};
use crate::numbers::{Numbers, byte, number, numbers_of};
use crate::stage::{End, Run, Viewing, status_of};
use pur_base::{NVRAM_DEVICES, Status};
use segment_codec::SegmentKind;
use std::str::SplitWhitespace;

/// What is done with a device.
#[derive(Clone, Copy)]
pub enum Act {
    Pull,
    PutBack,
    /// Its nth next call fails.
    Fail(u64),
    /// It doesn't answer from its nth next call on.
    Silence(u64),
    /// The bytes of the line are written there.
    Write(u64),
    /// It holds the bytes of the line there.
    Holds(u64),
    /// The last run wrote to the one place before it wrote to the other.
    Wrote(u64, u64),
}

/// What a line of a script asks for.
#[derive(Clone, Copy)]
pub enum Command {
    /// An array is made, and `ok` is wanted.
    Array,
    Run(Run),
    Or,
    On(Devices, Act),
    /// At most so many bytes are taken and given at a time.
    Piece(u64),
    FailTake(u64),
    FailGive(u64),
    Wake,
    Tear(u64),
    Segment(SegmentKind, u8),
}

/// Devices of these numbers, of so many that stand behind others.
fn among(numbers: Numbers, before: u8, count: u8) -> Option<Devices> {
    if numbers.first > numbers.last || numbers.last >= u64::from(count) {
        return None;
    }
    Some(Devices {
        first: before.saturating_add(numbers.first as u8),
        last: before.saturating_add(numbers.last as u8),
    })
}

fn devices_of(kind: &str, range: &str, n: u64) -> Option<Devices> {
    let numbers = numbers_of(range, n)?;
    match kind {
        "drive" => among(numbers, 0, DRIVES),
        "nvram" => among(numbers, DRIVES, NVRAM_DEVICES),
        _ => None,
    }
}

/// The words of a line, one behind another. That one of them can't be read is told at the end.
#[derive(Drop)]
struct Words<'a> {
    words: SplitWhitespace<'a>,
    /// The loop's number.
    n: u64,
    are_read: bool,
}

impl<'a> Words<'a> {
    /// The next word, or an empty one behind the last.
    fn next(&mut self) -> &'a str {
        self.words.next().unwrap_or("")
    }

    /// Goes on where a word is this.
    fn expect(&mut self, word: &str, wanted: &str) {
        self.are_read &= word == wanted;
    }

    /// What was read, or this in place of what can't be read.
    fn noted<T: Copy>(&mut self, read: Option<T>, instead: T) -> T {
        self.are_read &= read.is_some();
        read.unwrap_or(instead)
    }

    fn number(&mut self) -> u64 {
        let word = self.next();
        self.noted(number(word, self.n), 0)
    }

    /// The number behind this word.
    fn number_behind(&mut self, wanted: &str) -> u64 {
        let word = self.next();
        self.expect(word, wanted);
        self.number()
    }

    fn byte(&mut self) -> u8 {
        let word = self.next();
        self.noted(byte(word, self.n), 0)
    }

    /// The status of a word, which is `done` where there is none.
    fn status(&mut self, word: &str) -> Status {
        if word.is_empty() {
            return Status::Done;
        }
        self.noted(status_of(word), Status::Done)
    }

    fn devices(&mut self) -> Devices {
        let kind = self.next();
        let range = self.next();
        self.noted(
            devices_of(kind, range, self.n),
            Devices { first: 0, last: 0 },
        )
    }

    /// What is done with devices by this word.
    fn act(&mut self, word: &str) -> Act {
        match word {
            "pull" => Act::Pull,
            "put" => Act::PutBack,
            "write" => Act::Write(self.number_behind("at")),
            "holds" => Act::Holds(self.number_behind("at")),
            "wrote" => Act::Wrote(self.number_behind("at"), self.number_behind("before")),
            _ => self.failing(word),
        }
    }

    /// Which calls fail.
    fn failing(&mut self, word: &str) -> Act {
        self.expect(word, "fail");
        match self.next() {
            "at" => Act::Fail(self.number()),
            word => {
                self.expect(word, "from");
                Act::Silence(self.number())
            }
        }
    }

    /// How a session is to end.
    fn end(&mut self) -> End {
        match self.next() {
            "stop" => End::Stopped(self.number()),
            "within" => End::Within(self.number()),
            word => End::With(self.status(word)),
        }
    }

    fn making(&mut self) -> Run {
        let word = self.next();
        Run::Making(self.status(word))
    }

    /// The device that isn't there, if one is named.
    fn absent(&mut self) -> Option<u8> {
        let word = self.next();
        if word.is_empty() {
            return None;
        }
        self.expect(word, "without");
        Some(self.devices().first)
    }

    /// What a view is asked.
    fn viewing(&mut self) -> Viewing {
        let mut viewing = Viewing {
            is_json: false,
            absent: None,
            status: Status::Done,
        };
        match self.next() {
            "json" => {
                viewing.is_json = true;
                viewing.absent = self.absent();
            }
            "without" => viewing.absent = Some(self.devices().first),
            word => viewing.status = self.status(word),
        }
        viewing
    }

    fn segment(&mut self) -> Command {
        match self.next() {
            "patch" => Command::Segment(SegmentKind::Patch, self.byte()),
            word => {
                self.expect(word, "data");
                Command::Segment(SegmentKind::Data, self.byte())
            }
        }
    }

    /// The command of the line.
    fn command(&mut self) -> Command {
        match self.next() {
            "array" => Command::Array,
            "or" => Command::Or,
            "wake" => Command::Wake,
            "init" => Command::Run(self.making()),
            "session" => Command::Run(Run::Session(self.end())),
            "view" => Command::Run(Run::View(self.viewing())),
            "segment" => self.segment(),
            "piece" => Command::Piece(self.number()),
            "fail-take" => Command::FailTake(self.number()),
            "fail-give" => Command::FailGive(self.number()),
            "tear" => Command::Tear(self.number()),
            word => Command::On(self.devices(), self.act(word)),
        }
    }
}

/// The command of a line.
pub fn command_of(line: &str, n: u64) -> Option<Command> {
    let mut words = Words {
        words: line.split_whitespace(),
        n,
        are_read: true,
    };
    let command = words.command();
    if words.are_read && words.next().is_empty() {
        Some(command)
    } else {
        None
    }
}
