//! How the programs end: the exit status and the text on standard error of each status of a session, and the statuses of their own.
//! Each status has one number and one text.
#![tactic(auto)]

ghost use Rattle.std.specs.Prelude.{◌≡◌};
ghost use Rattle.program_endings.specs.Endings.{exit_code, exit_text};

use pur_base::Status;

/// The exit status where the current folder has no shelf.
pub const NO_SHELF: u8 = 10;

/// The exit status where another program has the shelf open.
pub const IN_USE: u8 = 11;

/// The exit status of the program.
pub fn code_of(status: Status) -> u8
    ensures { result ≡ exit_code status }
{
    match status {
        Status::Done => 0,
        Status::Words => 1,
        Status::NoArray => 2,
        Status::Halted => 3,
        Status::Source => 4,
        Status::Sink => 5,
        Status::Memory => 6,
        Status::Cut => 7,
        Status::InputLimit => 8,
        Status::NotBlank => 9,
    }
}

/// What the program says on standard error when it ends so.
pub fn text_of(status: Status) -> &'static str
    ensures { result.now ≡ exit_text status }
{
    match status {
        Status::Done => "done",
        Status::Words => "words",
        Status::NoArray => "no array",
        Status::Halted => "halted",
        Status::Source => "source",
        Status::Sink => "sink",
        Status::Memory => "memory",
        Status::Cut => "cut",
        Status::InputLimit => "input limit",
        Status::NotBlank => "not blank",
    }
}
