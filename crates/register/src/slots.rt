// The slot of a record.
ghost use Rattle.std.specs.Prelude.{◌≡◌};
ghost use Rattle.boot_codec.specs.Region.{slot_of};
ghost use Rattle.boot_region.specs.Slots.{slot_in};

use boot_region::Slot;

/// Where the record of a generation goes.
pub(crate) fn slot_for(generation: u64) -> Slot
    ensures { slot_in result ≡ slot_of generation }
{
    if generation % 2 == 0 {
        Slot::A
    } else {
        Slot::B
    }
}
