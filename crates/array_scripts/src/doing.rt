// What the lines of a script do.
use crate::commands::{Act, Command, command_of};
use crate::devices::{Devices, device_at, fail, set_pulled, silence, wake};
use crate::numbers::front_of;
use crate::stage::{Run, Stage};
use crate::texts::{push_bytes, push_line};
use pur_base::{Device, Status};

impl Stage {
    /// Does what a line says. False where that goes otherwise than is wanted or the line can't be read, which is told.
    pub fn step(&mut self, line: &str) -> bool {
        match line.strip_prefix("odd ") {
            Some(line) => self.n % 2 == 0 || self.do_line(line),
            None => self.do_line(line),
        }
    }

    fn do_line(&mut self, line: &str) -> bool {
        if let Some(text) = line.strip_prefix('>') {
            return self.is_asked() && self.hear(text);
        }
        if let Some(text) = line.strip_prefix('<') {
            return self.is_asked() && self.want(text);
        }
        let (front, bytes) = front_of(line, " bytes ", "");
        match command_of(front, self.n) {
            Some(command) => self.do_command(command, bytes),
            None => self.tell("this can't be read"),
        }
    }

    /// Whether there is something that is to run.
    fn is_asked(&mut self) -> bool {
        match self.run {
            Run::Nothing => self.tell("no session stands before this"),
            _ => true,
        }
    }

    /// A line of the input.
    fn hear(&mut self, text: &str) -> bool {
        push_line(self.alloc, &mut self.input, text, self.n) || self.tell("this can't be read")
    }

    /// A line of what is wanted.
    fn want(&mut self, text: &str) -> bool {
        let is_read = if self.has_other {
            push_line(self.alloc, &mut self.other, text, self.n)
        } else {
            push_line(self.alloc, &mut self.wanted, text, self.n)
        };
        is_read || self.tell("this can't be read")
    }

    /// Begins another output that is wanted, in place of the first one.
    fn or(&mut self) -> bool {
        if self.has_other {
            return self.tell("two outputs are wanted already");
        }
        self.has_other = true;
        true
    }

    /// Runs what stands before the command, and does it.
    fn do_command(&mut self, command: Command, bytes: &str) -> bool {
        match command {
            Command::Or => self.is_asked() && self.or(),
            _ => self.finish() && self.read_bytes(bytes) && self.run_command(command),
        }
    }

    /// Reads the bytes of the line.
    fn read_bytes(&mut self, bytes: &str) -> bool {
        self.bytes.clear();
        push_bytes(&mut self.bytes, bytes, self.n) || self.tell("these bytes can't be read")
    }

    fn run_command(&mut self, command: Command) -> bool {
        match command {
            Command::Array => self.begin(Run::Making(Status::Done)) && self.want(" ok"),
            Command::Run(run) => self.begin(run),
            Command::Or => false,
            Command::On(devices, act) => self.act_on_each(devices, act),
            Command::Piece(size) => self.set_piece(size),
            Command::FailTake(nth) => self.fail_take(nth),
            Command::FailGive(nth) => self.fail_give(nth),
            Command::Wake => {
                wake(&mut self.world);
                true
            }
            Command::Tear(byte) => self.tear((byte & 255) as u8),
            Command::Segment(kind, unit) => self.write_segment(kind, unit),
        }
    }

    fn set_piece(&mut self, size: u64) -> bool {
        if size == 0 {
            return self.tell("no piece");
        }
        self.world.set_piece(size as usize);
        true
    }

    fn fail_take(&mut self, nth: u64) -> bool {
        nth > 0 && self.world.fail_take(nth).is_ok()
    }

    fn fail_give(&mut self, nth: u64) -> bool {
        nth > 0 && self.world.fail_give(nth).is_ok()
    }

    fn act_on_each(&mut self, devices: Devices, act: Act) -> bool {
        for place in devices.first..devices.last.saturating_add(1) {
            if !self.act_on(place, act) {
                return false;
            }
        }
        true
    }

    fn act_on(&mut self, place: u8, act: Act) -> bool {
        let device = device_at(place);
        match act {
            Act::Pull => self.pull(device, true),
            Act::PutBack => self.pull(device, false),
            Act::Fail(nth) => fail(&mut self.world, device, nth) || self.tell("no such call"),
            Act::Silence(nth) => silence(&mut self.world, device, nth) || self.tell("no such call"),
            Act::Write(at) => self.write(device, at),
            Act::Holds(at) => self.holds(device, at),
            Act::Wrote(at, later) => self.wrote(device, at, later),
        }
    }

    /// Pulls a device, or puts it back.
    fn pull(&mut self, device: Device, is_pulled: bool) -> bool {
        set_pulled(&mut self.world, device, is_pulled);
        true
    }
}
