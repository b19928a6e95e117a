ghost use Rattle.std.specs.Prelude.{◌≡◌, ◌≤◌, ℕ, List, length, bytes_eq, option_map, true, IsTrue, IfSome};
ghost use Rattle.pur_base.specs.declared.request.Request.{Request};
ghost use Rattle.std.specs.List.{list_all};
ghost use Rattle.std.specs.Char.{is_ascii_digit};
ghost use Rattle.pur_base.specs.Grammar.{words, line_request, name_of, is_number, digits_number, number_of, number_in, count_of, byte_of, table_of, data_count, create_form, span_form, fill_form, new_form, copy_form, name_form, number_form, merge_form, bare_form, step_of, request_of, is_in_force, if_in_force, when};
ghost use Rattle.request_codec.specs.Spelled.{IsSpelledRequest};
ghost use Rattle.request_codec.specs.Words.{left_words};
ghost use Rattle.line_input.specs.Lines.{Holds};

use crate::words::Words;
use line_input::Line;
use pur_base::{NUMBER_DIGITS, Name, REQUEST_SECTORS, Request, Table};

// ---- fields

fn name_from(word: &[u8]) -> Option<Name>
    ensures { result ≡ name_of word.now }
{
    Name::read(word).ok()
}

fn all_digits(word: &[u8]) -> bool
    ensures { result ≡ list_all is_ascii_digit word.now }
{
    word.iter().all(|byte| byte.is_ascii_digit())
}

fn is_number_word(word: &[u8]) -> bool
    ensures number { result ≡ is_number word.now }
    ensures len { IsTrue result → length word.now ≤ NUMBER_DIGITS }
{
    let low = 1 <= word.len();
    let high = word.len() <= NUMBER_DIGITS;
    let digits = all_digits(word);
    low && high && digits && (word.len() == 1 || word[0] != b'0')
}

fn number_from(word: &[u8]) -> Option<u64>
    ensures { result ≡ number_of word.now }
{
    if !is_number_word(word) {
        return None;
    }
    let mut number: u64 = 0;
    for digit in word {
        number = number * 10 + (*digit - b'0') as u64;
    }
    Some(number)
}

fn number_between(low: u64, high: u64, word: &[u8]) -> Option<u64>
    ensures number { result ≡ number_in low high word.now }
    ensures bounds { IfSome result (λ n. (low ≤ n) × (n ≤ high)) }
{
    let number = number_from(word)?;
    if low <= number && number <= high {
        Some(number)
    } else {
        None
    }
}

fn count_from(word: &[u8]) -> Option<u8>
    ensures { result ≡ count_of word.now }
{
    let number = number_between(1, REQUEST_SECTORS as u64, word)?;
    Some(number as u8)
}

fn byte_from(word: &[u8]) -> Option<u8>
    ensures { result ≡ byte_of word.now }
{
    let number = number_between(0, 255, word)?;
    Some(number as u8)
}

fn is_text(word: &[u8], text: &[u8]) -> bool
    ensures { result ≡ bytes_eq word.now text.now }
{
    word == text
}

fn table_from(word: &[u8]) -> Option<Table>
    ensures { result ≡ table_of word.now }
{
    if is_text(word, b"object") {
        return Some(Table::Object);
    }
    if is_text(word, b"medium") {
        return Some(Table::Medium);
    }
    if is_text(word, b"address") {
        return Some(Table::Address);
    }
    if is_text(word, b"segment") {
        return Some(Table::Segment);
    }
    if is_text(word, b"elision") {
        return Some(Table::Elision);
    }
    None
}

// ---- forms

fn create_from(mut words: Words) -> Option<Request>
    ensures request { result ≡ create_form (left_words words.entry) }
{
    let (Some(name), Some(sectors), None) = (words.next(), words.next(), words.next()) else {
        return None;
    };
    match (name_from(name), number_from(sectors)) {
        (Some(name), Some(sectors)) => Some(Request::Create { name, sectors }),
        _ => None,
    }
}

fn span_from(mut words: Words) -> Option<(Name, u64, u8)>
    ensures span { (make : List ℕ → ℕ → ℕ → Request) → span_form make (left_words words.entry) ≡ option_map (λ s. make s.0 s.1 s.2) result }
{
    let (Some(name), Some(lba), Some(count), None) = (
        words.next(),
        words.next(),
        words.next(),
        words.next(),
    ) else {
        return None;
    };
    match (name_from(name), number_from(lba), count_from(count)) {
        (Some(name), Some(lba), Some(count)) => Some((name, lba, count)),
        _ => None,
    }
}

fn fill_from(mut words: Words) -> Option<Request>
    ensures request { result ≡ fill_form (left_words words.entry) }
{
    let (Some(name), Some(lba), Some(count), Some(byte), None) = (
        words.next(),
        words.next(),
        words.next(),
        words.next(),
        words.next(),
    ) else {
        return None;
    };
    match (
        name_from(name),
        number_from(lba),
        count_from(count),
        byte_from(byte),
    ) {
        (Some(name), Some(lba), Some(count), Some(byte)) => Some(Request::Fill {
            name,
            lba,
            count,
            byte,
        }),
        _ => None,
    }
}

fn new_from(mut words: Words) -> Option<(Name, Name)>
    ensures { (make : List ℕ → List ℕ → Request) → new_form make (left_words words.entry) ≡ option_map (λ s. make s.0 s.1) result }
{
    let (Some(name), Some(new), None) = (words.next(), words.next(), words.next()) else {
        return None;
    };
    match (name_from(name), name_from(new)) {
        (Some(name), Some(new)) => Some((name, new)),
        _ => None,
    }
}

fn copy_from(mut words: Words) -> Option<Request>
    ensures request { result ≡ copy_form (left_words words.entry) }
{
    let (Some(name), Some(lba), Some(to), Some(to_lba), Some(count), None) = (
        words.next(),
        words.next(),
        words.next(),
        words.next(),
        words.next(),
        words.next(),
    ) else {
        return None;
    };
    let count = number_between(1, 1_000_000_000_000_000, count);
    match (
        name_from(name),
        number_from(lba),
        name_from(to),
        number_from(to_lba),
        count,
    ) {
        (Some(name), Some(lba), Some(to), Some(to_lba), Some(count)) => Some(Request::Copy {
            name,
            lba,
            to,
            to_lba,
            count,
        }),
        _ => None,
    }
}

fn only_name(mut words: Words) -> Option<Name>
    ensures { (make : List ℕ → Request) → name_form make (left_words words.entry) ≡ option_map (λ n. make n) result }
{
    match (words.next(), words.next()) {
        (Some(name), None) => name_from(name),
        _ => None,
    }
}

fn only_number(mut words: Words) -> Option<u64>
    ensures { (make : ℕ → Request) → number_form make (left_words words.entry) ≡ option_map (λ n. make n) result }
{
    match (words.next(), words.next()) {
        (Some(number), None) => number_from(number),
        _ => None,
    }
}

fn merge_from(mut words: Words) -> Option<Request>
    ensures request { result ≡ merge_form (left_words words.entry) }
{
    let (Some(table), Some(index), None) = (words.next(), words.next(), words.next()) else {
        return None;
    };
    match (table_from(table), number_from(index)) {
        (Some(table), Some(index)) => Some(Request::Merge { table, index }),
        _ => None,
    }
}

fn bare(mut words: Words, request: Request) -> Option<Request>
    ensures request { result ≡ bare_form request (left_words words.entry) }
    ensures same { IfSome result (λ r. r ≡ request) }
{
    if words.next().is_some() {
        return None;
    }
    Some(request)
}

fn step_from(word: &[u8], words: Words) -> Option<Request>
    ensures request { result ≡ step_of word.now (left_words words.entry) }
{
    if is_text(word, b"status") {
        return bare(words, Request::Status);
    }
    if is_text(word, b"checkpoint") {
        return bare(words, Request::Checkpoint);
    }
    if is_text(word, b"merge") {
        return merge_from(words);
    }
    if is_text(word, b"flatten") {
        let name = only_name(words)?;
        return Some(Request::Flatten { name });
    }
    if is_text(word, b"clean") {
        let segment = only_number(words)?;
        return Some(Request::Clean { segment });
    }
    if is_text(word, b"reclaim") {
        return bare(words, Request::Reclaim);
    }
    if is_text(word, b"evict") {
        let drive = only_number(words)?;
        return Some(Request::Evict { drive });
    }
    if is_text(word, b"admit") {
        let drive = only_number(words)?;
        return Some(Request::Admit { drive });
    }
    if is_text(word, b"rebuild") {
        let drive = only_number(words)?;
        return Some(Request::Rebuild { drive });
    }
    if is_text(word, b"takeover") {
        return bare(words, Request::Takeover);
    }
    None
}

/// The request that a line spells, in force or not.
fn spelled_by(line: &[u8]) -> Option<Request>
    ensures request { result ≡ request_of (words line.now) }
{
    let mut words = Words::new(line);
    let word = words.next()?;
    if is_text(word, b"create") {
        return create_from(words);
    }
    if is_text(word, b"write") {
        let (name, lba, count) = span_from(words)?;
        return Some(Request::Write { name, lba, count });
    }
    if is_text(word, b"fill") {
        return fill_from(words);
    }
    if is_text(word, b"zero") {
        let (name, lba, count) = span_from(words)?;
        return Some(Request::Zero { name, lba, count });
    }
    if is_text(word, b"read") {
        let (name, lba, count) = span_from(words)?;
        return Some(Request::Read { name, lba, count });
    }
    if is_text(word, b"snapshot") {
        let (name, new) = new_from(words)?;
        return Some(Request::Snapshot { name, new });
    }
    if is_text(word, b"clone") {
        let (name, new) = new_from(words)?;
        return Some(Request::Clone { name, new });
    }
    if is_text(word, b"copy") {
        return copy_from(words);
    }
    if is_text(word, b"destroy") {
        let name = only_name(words)?;
        return Some(Request::Destroy { name });
    }
    if is_text(word, b"list") {
        return bare(words, Request::List);
    }
    step_from(word, words)
}

fn if_served(request: Request) -> Option<Request>
    ensures request { result ≡ when (is_in_force request) request }
    ensures served { IfSome result (λ r. is_in_force r ≡ true) }
    ensures same { IfSome result (λ r. r ≡ request) }
{
    if request.is_in_force() {
        Some(request)
    } else {
        None
    }
}

/// The request of a line, where its form is in force.
fn request_from(line: &[u8]) -> Option<Request>
    ensures request { result ≡ if_in_force (request_of (words line.now)) }
    ensures served { IfSome result (λ r. is_in_force r ≡ true) }
    ensures spelled { IfSome result IsSpelledRequest }
    ensures few { IfSome result (λ r. data_count r ≤ REQUEST_SECTORS) }
{
    let request = spelled_by(line)?;
    if_served(request)
}

/// The request that a line is.
pub fn request_of(line: &Line) -> Option<Request>
    ensures request { (got : List ℕ) → Holds line.now got → result ≡ line_request got }
    ensures served { IfSome result (λ r. is_in_force r ≡ true) }
    ensures spelled { IfSome result IsSpelledRequest }
    ensures few { IfSome result (λ r. data_count r ≤ REQUEST_SECTORS) }
{
    if line.long {
        return None;
    }
    request_from(line.text.as_slice())
}
