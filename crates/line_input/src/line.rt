// Lines from the input, of which at most `LINE_BYTES` are kept.
ghost use Rattle.std.specs.Prelude.{◌≡◌, ◌↔◌, ◌+◌, ◌<◌, ◌++◌, ℕ, List, [], true, false, length, IfOk, OnErr, IsTrue};
ghost use Rattle.std.specs.List.{position_or_len, list_any};
ghost use Rattle.pur_base.specs.Grammar.{is_line_end};
ghost use Rattle.line_input.specs.Ahead.{Tells, budget};
ghost use Rattle.line_input.specs.Reading.{Totals, Unfinished};
ghost use Rattle.line_input.specs.Asking.{Asks, Stops};
ghost use Rattle.line_input.specs.Lines.{Holds, ReadsLine};

use crate::input::{Input, Refill};
use crate::search::place_of;
use arrayvec::ArrayVec;
use pur_base::LINE_BYTES;
use world::{Failed, Source};

/// A line that is read: its bytes, or that they are too many.
#[derive(Drop)]
pub struct Line {
    pub text: ArrayVec<u8, LINE_BYTES>,
    pub long: bool,
}

/// What ended the reading of a line.
#[derive(Clone, Copy)]
pub enum LineEnd {
    Line,
    End,
    Limit,
}

impl Line {
    pub fn new() -> Line
        ensures { Holds result [] }
    {
        Line {
            text: ArrayVec::new(),
            long: false,
        }
    }

    pub fn is_empty(&self) -> bool
        ensures { (got : List ℕ) → Holds self.now got → IsTrue result ↔ (length got ≡ 0) }
    {
        !self.long && self.text.is_empty()
    }

    pub fn append(&mut self, piece: &[u8])
        ensures { (got : List ℕ) → Holds self.old got → Holds self.new (got ++ piece.now) }
    {
        if !self.long && self.text.try_extend_from_slice(piece).is_err() {
            self.long = true;
        }
    }
}

/// Reads a line up to its end, or up to the end of the input.
pub fn read_line<S: Source>(
    input: &mut Input,
    line: &mut Line,
    source: &mut S,
) -> Result<LineEnd, Failed>
    requires { Holds line.old [] }
    ensures told { IfOk result (λ found. Tells input.old (S.source source.old) → Tells input.new (S.source source.new)
        × ReadsLine found line.new (input.old.pending ++ (S.source source.old).bytes) (input.new.pending ++ (S.source source.new).bytes)) }
    ensures total { IfOk result (λ found. Tells input.old (S.source source.old) →
        Totals (found ≡ LineEnd.Limit) input.old.taken input.new.taken (length (S.source source.old).bytes) (length (S.source source.new).bytes)) }
    ensures progress { IfOk result (λ found. found ≡ LineEnd.Line → budget input.new < budget input.old) }
    ensures last { IfOk result (λ found. found ≡ LineEnd.Line → Tells input.old (S.source source.old) →
        list_any is_line_end (input.old.pending ++ (S.source source.old).bytes) ≡ false → input.new.ended ≡ true) }
    ensures stops { IfOk result (λ found. Stops (found ≡ LineEnd.End) (found ≡ LineEnd.Limit) input.new) }
    ensures failed { OnErr result (Tells input.old (S.source source.old) → Tells input.new (S.source source.new)
        × Unfinished (input.old.pending ++ (S.source source.old).bytes) (S.source source.new).bytes (λ rest. position_or_len is_line_end rest ≡ length rest)) }
    ensures asks { Asks S.source S.source_rest result input.old input.new source.old source.new }
{
    'pieces: loop {
        match input.ready(source)? {
            Refill::Bytes => {}
            Refill::End => {
                return Ok(if line.is_empty() {
                    LineEnd::End
                } else {
                    LineEnd::Line
                });
            }
            Refill::Limit => return Ok(LineEnd::Limit),
        }
        let pending = input.pending();
        match place_of(pending, b'\n') {
            Some(at) => {
                line.append(&pending[..at]);
                input.consume(at + 1);
                return Ok(LineEnd::Line);
            }
            None => {
                let count = pending.len();
                line.append(pending);
                input.consume(count);
            }
        }
    }
}
