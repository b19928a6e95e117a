// A reader over a source that gives little at once, and a writer over a sink that counts.
ghost use Rattle.std.specs.Prelude.{◌≡◌};

use pur_base::{REQUEST_SECTORS, Reply, Request, Sector};
use request_codec::{Item, Reader, ReplyWriter};
use std::alloc::Global;
use world::{Failed, Sink, Source};

/// Bytes in memory, a piece at a time.
#[derive(Drop)]
struct Pieces<'a> {
    bytes: &'a [u8],
    piece: usize,
    asked: u64,
}

impl Source for Pieces<'_> {
    ghost source = { λ s. record { honest = ⊥; bytes = s.bytes.now; faults = 0 } };

    ghost source_rest = { λ _ _. Unit {0} };

    fn take(&mut self, into: &mut [u8]) -> Result<usize, Failed> {
        self.asked = self.asked.wrapping_add(1);
        let count = into.len().min(self.bytes.len()).min(self.piece);
        let (front, rest) = self.bytes.split_at(count);
        into[..count].copy_from_slice(front);
        self.bytes = rest;
        Ok(count)
    }

    ghost source_rest_stays = { record { reflexive = λ _. tt; transitive = λ _ _ _ _ _. tt } };
}

/// Counts what it is given.
#[derive(Drop)]
struct Counter {
    gives: u64,
    bytes: usize,
}

impl Sink for Counter {
    ghost use Rattle.std.specs.Prelude.{[]};

    ghost sink = { λ _. record { honest = ⊥; bytes = []; faults = 0 } };

    ghost sink_rest = { λ _ _. Unit {0} };

    fn give(&mut self, from: &[u8]) -> Result<usize, Failed> {
        self.gives = self.gives.wrapping_add(1);
        self.bytes = self.bytes.wrapping_add(from.len());
        Ok(from.len())
    }

    ghost sink_rest_stays = { record { reflexive = λ _. tt; transitive = λ _ _ _ _ _. tt } };
}

/// The bytes of the session.
const SESSION: usize = 765;

/// Requests, of which one has a sector of the byte x behind it, and lines that are none: one with too great a count, one of 129 bytes, and an empty one among them.
fn session() -> [u8; SESSION] {
    let mut input = [b'x'; SESSION];
    input[..32].copy_from_slice(b"create vol-1 64\nwrite vol-1 0 1\n");
    let lines = b"fill vol-1 3 64 255\nfill vol-1 3 65 255\nzero vol-1 0 1\n";
    input[544..599].copy_from_slice(lines);
    input[599..728].fill(b'a');
    input[728..].copy_from_slice(b"\n\nread vol-1 01 1\nread vol-1 1 1\nlist");
    input
}

fn request_letter(request: &Request) -> char {
    match request {
        Request::Create { .. } => 'c',
        Request::Write { .. } => 'w',
        Request::Fill { .. } => 'f',
        Request::Zero { .. } => 'z',
        Request::Read { .. } => 'r',
        Request::List => 'l',
        _ => '?',
    }
}

fn next_letter(reader: &mut Reader, source: &mut Pieces) -> Option<char> {
    match reader.next(source) {
        Ok(Item::Request(request)) => Some(request_letter(&request)),
        Ok(Item::Syntax) => Some('s'),
        Ok(Item::Cut) => Some('!'),
        Ok(Item::Limit) => Some('>'),
        Ok(Item::End) => Some('.'),
        Err(_) => None,
    }
}

/// What is read, by its letters.
const LETTERS: [char; 10] = ['c', 'w', 'f', 's', 'z', 's', 's', 's', 'r', 'l'];

/// Whether the next items are these.
fn reads_letters(reader: &mut Reader, source: &mut Pieces) -> bool {
    for want in &LETTERS {
        if next_letter(reader, source) != Some(*want) {
            return false;
        }
    }
    true
}

/// Whether the end comes then, for which nothing more is asked.
fn reads_end(reader: &mut Reader, source: &mut Pieces) -> bool {
    let asked = source.asked;
    next_letter(reader, source) == Some('.') && source.asked == asked
}

/// Whether the items are read of an input that comes in pieces of this size.
fn reads_all(alloc: Global, input: &[u8], piece: usize) -> bool {
    let mut source = Pieces {
        bytes: input,
        piece,
        asked: 0,
    };
    let Ok(mut reader) = Reader::new(alloc) else {
        return false;
    };
    reads_letters(&mut reader, &mut source) && reads_end(&mut reader, &mut source)
}

fn items_are_the_same_at_every_piece_size(alloc: Global) -> bool {
    let input = session();
    for piece in 1..8 {
        if !reads_all(alloc, &input, piece) {
            return false;
        }
    }
    true
}

/// Whether writing 64 sectors that were read gives nothing before the flush, and then all at once.
fn is_one_give(writer: &mut ReplyWriter, sectors: &[Sector]) -> bool {
    let mut sink = Counter { gives: 0, bytes: 0 };
    writer
        .write_reply(&Reply::Data { count: 64 }, sectors, &mut sink)
        .is_ok()
        && sink.gives == 0
        && writer.flush(&mut sink).is_ok()
        && sink.gives == 1
        && sink.bytes == 32_776
}

fn gives_once(alloc: Global) -> bool {
    let Ok(sectors) = Vec::from_elem(alloc, Sector::filled(7), REQUEST_SECTORS) else {
        return false;
    };
    let Ok(mut writer) = ReplyWriter::new(alloc) else {
        return false;
    };
    is_one_give(&mut writer, &sectors)
}

#[test]
fn each_holds(rt: HostRuntime) {
    assert!(rt; items_are_the_same_at_every_piece_size(rt.alloc()) && gives_once(rt.alloc()));
}
