// The lines of replies.
ghost use Rattle.std.specs.Prelude.{◌≡◌, ◌+◌, ◌≤◌, ◌++◌, [], drop, length, decimal};
ghost use Rattle.arrayvec.specs.ArrayVec.{array_vec_len};
ghost use Rattle.pur_base.specs.Replies.{word, line_text, kind_text, entry_text};

use arrayvec::ArrayVec;
use itoa::Buffer;
use pur_base::{Name, Refusal, Reply};

/// Room for the longest line, which has the numbers of a status.
pub type Line = ArrayVec<u8, 256>;

/// No line of a reply of sectors is longer: a word and a blank, a number of up to 20 digits, and the end.
pub const DATA_LINE_BYTES: usize = 26;

fn push_text(line: &mut Line, text: &[u8])
    requires { array_vec_len line.old + length text.now ≤ 256 }
    ensures { line.new.items ≡ line.old.items ++ text.now }
{
    if line.try_extend_from_slice(text).is_err() {
        unreachable!()
    }
}

fn push_number(line: &mut Line, number: u64)
    requires { array_vec_len line.old + 20 ≤ 256 }
    ensures text { line.new.items ≡ line.old.items ++ decimal number }
    ensures short { length (decimal number) ≤ 20 }
{
    let mut buffer = Buffer::new();
    push_text(line, buffer.format(number).as_bytes());
}

fn word_of(refusal: Refusal) -> &'static [u8]
    ensures word { result.now ≡ word refusal }
    ensures short { length result.now ≤ 20 }
{
    match refusal {
        Refusal::Cut => b"cut",
        Refusal::Syntax => b"syntax",
        Refusal::Halted => b"halted",
        Refusal::Unknown => b"unknown",
        Refusal::Taken => b"taken",
        Refusal::ReadOnly => b"read-only",
        Refusal::Range => b"range",
        Refusal::Limit => b"limit",
        Refusal::Spent => b"spent",
        Refusal::NothingThere => b"nothing-there",
        Refusal::Member => b"member",
        Refusal::Missing => b"missing",
        Refusal::TooFew => b"too-few",
        Refusal::Space => b"space",
        Refusal::Memory => b"memory",
        Refusal::Device => b"device",
    }
}

fn push_numbers(line: &mut Line, numbers: &[u64; 10])
    requires { line.old.items ≡ [] }
    ensures text { line.new.items ≡ line_text (Reply.Numbers numbers.now) }
{
    push_text(line, b"status");
    for number in numbers {
        push_text(line, b" ");
        push_number(line, *number);
    }
    push_text(line, b"\n");
}

/// The first line of a reply of sectors.
fn push_data(line: &mut Line, count: u64)
    requires { line.old.items ≡ [] }
    ensures text { line.new.items ≡ line_text (Reply.Data count) }
    ensures short { array_vec_len line.new ≤ DATA_LINE_BYTES }
{
    push_text(line, b"data ");
    push_number(line, count);
    push_text(line, b"\n");
}

/// Puts the line of a reply of so many sectors at the end of the room that is kept for it in front of them. Gives where it begins.
pub fn put_data_line(count: u64, room: &mut [u8]) -> usize
    requires { DATA_LINE_BYTES ≤ length room.old }
    ensures within { result ≤ length room.old }
    ensures line { drop result room.new ≡ line_text (Reply.Data count) }
{
    let mut line: Line = ArrayVec::new();
    push_data(&mut line, count);
    let start = room.len() - line.len();
    room[start..].copy_from_slice(line.as_slice());
    start
}

/// The first line of a reply.
pub fn push_reply(line: &mut Line, reply: &Reply)
    requires { line.old.items ≡ [] }
    ensures { line.new.items ≡ line_text reply.now }
{
    match reply {
        Reply::Done => push_text(line, b"ok\n"),
        Reply::Data { count } => push_data(line, *count),
        Reply::Names { count } => {
            push_text(line, b"names ");
            push_number(line, *count);
            push_text(line, b"\n");
        }
        Reply::Controller { number } => {
            push_text(line, b"ok controller ");
            push_number(line, *number as u64);
            push_text(line, b"\n");
        }
        Reply::Numbers { numbers } => push_numbers(line, numbers),
        Reply::Idle => push_text(line, b"ok idle\n"),
        Reply::Left => push_text(line, b"ok left\n"),
        Reply::Member => push_text(line, b"ok member\n"),
        Reply::Refused { why } => {
            push_text(line, b"no ");
            push_text(line, word_of(*why));
            push_text(line, b"\n");
        }
    }
}

fn kind_of(snapshot: bool) -> &'static [u8]
    ensures kind { result.now ≡ kind_text snapshot }
    ensures short { length result.now ≤ 20 }
{
    if snapshot { b" snapshot " } else { b" volume " }
}

/// One line of the names.
pub fn push_entry(line: &mut Line, name: &Name, snapshot: bool, sectors: u64)
    requires { line.old.items ≡ [] }
    ensures { line.new.items ≡ entry_text name.now snapshot sectors }
{
    push_text(line, name.as_bytes());
    push_text(line, kind_of(snapshot));
    push_number(line, sectors);
    push_text(line, b"\n");
}
