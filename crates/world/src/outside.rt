// All that is outside, on one clock.
ghost use Rattle.std.specs.Prelude.{◌≡◌, ◌+◌, length};
ghost use Rattle.world.specs.Shelf.{OutputOnly, TakenOnly};
ghost use Rattle.world.specs.Streams.{SameStream};

use crate::{Shelf, Sink, Source};

/// A shelf, a source and a sink in one, on one clock: a stop tells which output was given and how much input was taken by then.
/// What a call of the one leaves is the whole of the others.
pub trait World: Shelf + Source + Sink {
    /// The output that the shelf tells is what the sink was given.
    ghost one_clock: { (w : Self) → (Self.sink w).honest → (Self.shelf w).output ≡ (Self.sink w).bytes };

    /// A byte that is no longer left was taken.
    ghost take_is_told: { (a b : Self) → Self.source_rest a b → (Self.source a).honest → (Self.shelf b).taken + length (Self.source b).bytes ≡ (Self.shelf a).taken + length (Self.source a).bytes };

    ghost shelf_keeps_source: { (a b : Self) → Self.shelf_rest a b → SameStream (Self.source a) (Self.source b) };

    ghost shelf_keeps_sink: { (a b : Self) → Self.shelf_rest a b → SameStream (Self.sink a) (Self.sink b) };

    ghost take_keeps_shelf: { (a b : Self) → Self.source_rest a b → TakenOnly (Self.shelf a) (Self.shelf b) };

    ghost take_keeps_sink: { (a b : Self) → Self.source_rest a b → SameStream (Self.sink a) (Self.sink b) };

    ghost give_keeps_shelf: { (a b : Self) → Self.sink_rest a b → OutputOnly (Self.shelf a) (Self.shelf b) };

    ghost give_keeps_source: { (a b : Self) → Self.sink_rest a b → SameStream (Self.source a) (Self.source b) };
}
