ghost use Rattle.std.specs.Prelude.{◌≡◌};
ghost use Rattle.pur_base.specs.Visible.{segments};
ghost use Rattle.memory_spec.specs.Tables.{facts};
ghost use Rattle.command_spec.specs.Kept.{Kept, IsKept};

/// The visible data segments that are kept in memory are those that the facts of its tables say.
pub fn visible_segments()
    ensures { (k : Kept) → IsKept k → segments (facts k.memory.tables) k.memory.next.segment ≡ k.segments }
{}
