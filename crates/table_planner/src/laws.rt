ghost use Rattle.memory_spec.specs.Memory.{Memory};
ghost use Rattle.array_memory.specs.declared.plan.Plan.{Plan};
ghost use Rattle.array_memory.specs.Eliding.{ElidingLeaves};
ghost use Rattle.array_memory.specs.Lasting.{AreLawfulPatches, AreNoMore};
ghost use Rattle.array_memory.specs.Plan.{IsPlanFor};

/// What a plan's patches hold may be written: facts of their tables in order of keys, no more than were unflushed.
pub fn plans_are_lawful()
    ensures patches { (m : Memory) (p : Plan) → IsPlanFor m p → AreLawfulPatches p }
    ensures few { (m : Memory) (p : Plan) → IsPlanFor m p → AreNoMore m p }
{}

/// What a checkpoint elides, and what it leaves to the next one.
pub fn laws_of_elidings()
    ensures { ElidingLeaves }
{}
