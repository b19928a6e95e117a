// Memory takes the front in.
ghost use Rattle.std.specs.Prelude.{◌≡◌, ◌+◌, ◌≤◌, ℕ, IfNone, IfSome};
ghost use Rattle.pur_base.specs.Devices.{Geometry};
ghost use Rattle.command_spec.specs.Flattening.{FlattensTo, HasNoRange, LeavesRanges, TakesFront};
ghost use Rattle.array_core.specs.Ready.{IsArrayOf};
ghost use Rattle.array_core.specs.TakingIn.{TakesIn};
ghost use Rattle.array_core.specs.declared.array.TheConstants.{BACKGROUND_FACTS};
ghost use Rattle.medium_flattener.specs.Front.{IsFrontOf, facts_of};
ghost use Rattle.medium_flattener.specs.Made.{reply_of};

use crate::flattening::Flattened;
use crate::front::Front;
use array_core::Array;
use array_memory::Memory;
use pur_base::MediumId;

/// Takes the front in. There is room for it as long as what came in without a command is as little as may be.
fn take_front(array: &mut Array, front: &Front)
    requires is_of { (shelf : Geometry) × IsArrayOf shelf array.old }
    requires front { (medium : ℕ) × IsFrontOf array.old.memory.memory medium front.now }
    requires fits { array.old.background.facts + facts_of front.now ≤ BACKGROUND_FACTS }
    ensures taken { TakesIn array.old array.new }
    ensures made { (medium : ℕ) → IsFrontOf array.old.memory.memory medium front.now
        → TakesFront medium array.old.memory.memory array.new.memory.memory array.old.background.facts array.new.background.facts }
{
    array
        .memory
        .flatten(&front.range, front.until, front.given());
    array.memory.layered();
    array.background.facts += front.facts();
}

/// What a flattening of the medium has left.
fn left_of(memory: &Memory, medium: MediumId) -> Flattened
    ensures { LeavesRanges (reply_of result) memory.now.memory medium.0 }
{
    match memory.lowest(medium) {
        Some(_) => Flattened::Left,
        None => Flattened::Done,
    }
}

/// Takes in the front of a medium, if it has one, and says what that leaves.
pub(crate) fn take(array: &mut Array, medium: MediumId, front: &Option<Front>) -> Flattened
    requires is_of { (shelf : Geometry) × IsArrayOf shelf array.old }
    requires some { IfSome front.now (IsFrontOf array.old.memory.memory medium.0) }
    requires none { IfNone front.now (HasNoRange array.old.memory.memory medium.0) }
    requires fits { IfSome front.now (λ f. array.old.background.facts + facts_of f ≤ BACKGROUND_FACTS) }
    ensures taken { TakesIn array.old array.new }
    ensures flat { FlattensTo (reply_of result) medium.0 array.old.memory.memory array.new.memory.memory array.old.background.facts array.new.background.facts }
{
    match front {
        Some(front) => {
            take_front(array, front);
            left_of(&array.memory, medium)
        }
        None => Flattened::Idle,
    }
}
