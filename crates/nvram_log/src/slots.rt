// Commands that were read.
ghost use Rattle.std.specs.Prelude.{◌≡◌, ℕ, ◌+◌, Some, slice_get, List, IsSomeAnd};
ghost use Rattle.std.specs.Slice.{IsItemAt};
ghost use Rattle.pur_base.specs.Commands.{Command};
ghost use Rattle.log_codec.specs.Log.{HasSpelling};

use crate::{Logged, NvLog};

impl NvLog {
    ghost use Rattle.nvram_log.specs.Held.{HasRead};
    ghost use Rattle.nvram_log.specs.Logged.{IsReadAs};

    /// The command of a slot of the log that was read, and `None` behind the last one.
    pub fn record_at(&self, i: usize) -> Option<&Logged>
        ensures item { IsItemAt self.now.records.items i result }
        ensures read { (commands : List Command) (c : Command) → HasRead self.now commands → slice_get commands i ≡ Some c
            → IsSomeAnd result (λ l. IsReadAs l.now (self.now.flushed + 1 + i) c × HasSpelling (self.now.flushed + 1 + i) c) }
    {
        self.records.get(i)
    }
}
