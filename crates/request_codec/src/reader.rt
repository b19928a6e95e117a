// The reader of requests.
ghost use Rattle.std.specs.Prelude.{◌≡◌, ◌⊎◌, ◌++◌, [], true, false, length, IfOk, OnErr};
ghost use Rattle.std.specs.List.{list_any};
ghost use Rattle.pur_base.specs.Grammar.{is_line_end, is_whole};
ghost use Rattle.line_input.specs.Ahead.{Tells, budget};
ghost use Rattle.line_input.specs.Reading.{Totals, Unfinished};
ghost use Rattle.line_input.specs.Asking.{Asks, Stops};
ghost use Rattle.request_codec.specs.Items.{Reads, IsComplete, TakesSome};

use crate::data::{DataEnd, read_data};
use crate::parse::request_of;
use line_input::{Input, Line, LineEnd, read_line};
use pur_base::{NoMemory, REQUEST_SECTORS, Request, Sector};
use std::alloc::Global;
use std::marker::Model;
use world::{Failed, Source};

/// What stands next in the input.
#[derive(Clone, Copy, Drop)]
pub enum Item {
    Request(Request),
    /// The line has none of the forms in force.
    Syntax,
    /// The input ended inside a write's data.
    Cut,
    /// `INPUT_BYTES` bytes were taken, and there are more, of which one is lost.
    Limit,
    /// Nothing is left.
    End,
}

/// Reads requests from a source, through a buffer of 64 KiB and with room for the sectors of one request.
#[derive(Drop)]
pub struct Reader {
    input: Input,
    sectors: Vec<Sector>,
}

impl Model for Reader {
    ghost use Rattle.std.specs.Prelude.{◌≤◌, vec_capacity};
    ghost use Rattle.pur_base.specs.declared.limits.TheConstants.{REQUEST_SECTORS};
    ghost use Rattle.request_codec.specs.Reader.{Reading};

    ghost Value = { Reading };

    ghost view = { λ r. record { ahead = r.input; sectors = r.sectors.items } };

    ghost invariant = { λ r. REQUEST_SECTORS ≤ vec_capacity r.sectors };
}

impl Reader {
    /// A reader that has taken nothing. What it allocates it allocates here.
    pub fn new(alloc: Global) -> Result<Reader, NoMemory>
        ensures pending { IfOk result (λ r. r.ahead.pending ≡ []) }
        ensures taken { IfOk result (λ r. r.ahead.taken ≡ 0) }
        ensures ended { IfOk result (λ r. r.ahead.ended ≡ false) }
    {
        let input = Input::new(alloc)?;
        let sectors = Vec::with_capacity(alloc, REQUEST_SECTORS)?;
        Ok(Reader { input, sectors })
    }

    /// The data of the last request.
    pub fn sectors(&self) -> &[Sector]
        ensures { result.now ≡ self.now.sectors }
    {
        &self.sectors
    }

    /// Reads the next item. `Failed` comes where a call of the source failed; the bytes of the item that it stood in are lost.
    pub fn next<S: Source>(&mut self, source: &mut S) -> Result<Item, Failed>
        ensures told { IfOk result (λ item. Tells self.old.ahead (S.source source.old) → Tells self.new.ahead (S.source source.new)
            × Reads item self.new.sectors (self.old.ahead.pending ++ (S.source source.old).bytes) (self.new.ahead.pending ++ (S.source source.new).bytes)) }
        ensures total { IfOk result (λ item. Tells self.old.ahead (S.source source.old) →
            Totals (item ≡ Item.Limit) self.old.ahead.taken self.new.ahead.taken (length (S.source source.old).bytes) (length (S.source source.new).bytes)) }
        ensures complete { IfOk result (λ item. IsComplete item self.new.sectors) }
        ensures progress { IfOk result (λ item. TakesSome item (budget self.old.ahead) (budget self.new.ahead)) }
        ensures stops { IfOk result (λ item. Stops ((item ≡ Item.End) ⊎ (item ≡ Item.Cut)) (item ≡ Item.Limit) self.new.ahead) }
        ensures last { IfOk result (λ item. Tells self.old.ahead (S.source source.old) →
            list_any is_line_end (self.old.ahead.pending ++ (S.source source.old).bytes) ≡ false → (item ≡ Item.Limit) ⊎ (self.new.ahead.ended ≡ true)) }
        ensures failed { OnErr result (Tells self.old.ahead (S.source source.old) → Tells self.new.ahead (S.source source.new)
            × Unfinished (self.old.ahead.pending ++ (S.source source.old).bytes) (S.source source.new).bytes (λ rest. is_whole rest ≡ false)) }
        ensures asks { Asks S.source S.source_rest result self.old.ahead self.new.ahead source.old source.new }
    {
        let mut line = Line::new();
        match read_line(&mut self.input, &mut line, source)? {
            LineEnd::Line => {}
            LineEnd::End => return Ok(Item::End),
            LineEnd::Limit => return Ok(Item::Limit),
        }
        let Some(request) = request_of(&line) else {
            return Ok(Item::Syntax);
        };
        let count = request.data_sectors();
        match read_data(&mut self.input, count, &mut self.sectors, source)? {
            DataEnd::Whole => {}
            DataEnd::Cut => return Ok(Item::Cut),
            DataEnd::Limit => return Ok(Item::Limit),
        }
        Ok(Item::Request(request))
    }
}
