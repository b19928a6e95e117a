// A byte of the input, and a byte of the output, with what the other parts of the world say.
ghost use Rattle.std.specs.Prelude.{◌≡◌, ◌+◌, ◌≤◌, [], ◌∷◌, ◌++◌, length, slice_index, true, false, drop, IfOk, OnOk};
ghost use Rattle.world.specs.Counts.{Counts};
ghost use Rattle.world.specs.Shelf.{TakenOnly, OutputOnly};
ghost use Rattle.world.specs.Streams.{SameStream};

use world::{Failed, World};

/// The next byte of the input. False at its end.
pub fn take_byte<W: World>(world: &mut W, byte: &mut [u8; 1]) -> Result<bool, Failed>
    ensures shelf { TakenOnly (W.shelf world.old) (W.shelf world.new) }
    ensures sink { SameStream (W.sink world.old) (W.sink world.new) }
    ensures honest { (W.source world.old).honest → (W.source world.new).honest }
    ensures taken { (W.source world.old).honest → IfOk result (λ more. more ≡ true →
        (slice_index (W.source world.old).bytes 0 ≡ slice_index byte.new 0) × ((W.source world.new).bytes ≡ drop 1 (W.source world.old).bytes)) }
    ensures ended { (W.source world.old).honest → IfOk result (λ more. more ≡ false → ((W.source world.old).bytes ≡ []) × ((W.source world.new).bytes ≡ [])) }
    ensures counts { Counts result (W.source world.old).faults (W.source world.new).faults }
{
    Ok(world.take(byte)? != 0)
}

/// Gives a byte.
pub fn give_byte<W: World>(world: &mut W, byte: u8) -> Result<(), Failed>
    ensures shelf { OutputOnly (W.shelf world.old) (W.shelf world.new) }
    ensures source { SameStream (W.source world.old) (W.source world.new) }
    ensures honest { (W.sink world.old).honest → (W.sink world.new).honest }
    ensures longer { (W.sink world.old).honest → length (W.shelf world.new).output ≤ length (W.shelf world.old).output + 1 }
    ensures given { (W.sink world.old).honest → OnOk result ((length (W.shelf world.new).output ≡ length (W.shelf world.old).output + 1)
        × ((W.sink world.new).bytes ≡ (W.sink world.old).bytes ++ byte ∷ [])) }
    ensures counts { Counts result (W.sink world.old).faults (W.sink world.new).faults }
{
    world.give(&[byte])?;
    Ok(())
}
