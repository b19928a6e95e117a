// The input and the output.
ghost use Rattle.std.specs.Prelude.{◌≡◌, ◌↔◌, ◌<◌, ◌≤◌, length, IfOk};
ghost use Rattle.world.specs.Counts.{Counts};
ghost use Rattle.world.specs.Streams.{Streamed, WasTaken, WasGiven, IsPreorder};

/// A call of the outside failed, and was counted.
#[derive(Clone, Copy, PartialEq, Eq)]
pub struct Failed;

/// Where bytes come from.
pub trait Source {
    /// The bytes that are left, where it is honest, and how often it failed.
    ghost source: { Self → Streamed };

    /// Nothing but the source has changed.
    ghost source_rest: { Self → Self → Type 0 };

    /// Takes the next bytes into the front of the buffer, and gives their number. With room that is 0 exactly at the end of the input.
    fn take(&mut self, into: &mut [u8]) -> Result<usize, Failed>
        ensures room { IfOk result (λ n. n ≤ length into.old) }
        ensures honest { (source self.old).honest ↔ (source self.new).honest }
        ensures taken { (source self.old).honest → WasTaken result into.new (source self.old).bytes (source self.new).bytes }
        ensures counts { Counts result (source self.old).faults (source self.new).faults }
        ensures rest { source_rest self.old self.new };

    ghost source_rest_stays: { IsPreorder source_rest };
}

/// Where bytes go.
pub trait Sink {
    /// The bytes that were given, where it is honest, and how often it failed.
    ghost sink: { Self → Streamed };

    /// Nothing but the sink has changed.
    ghost sink_rest: { Self → Self → Type 0 };

    /// Gives the first bytes, one at least of a piece that isn't empty, and tells how many.
    fn give(&mut self, from: &[u8]) -> Result<usize, Failed>
        ensures within { IfOk result (λ n. n ≤ length from.now) }
        ensures some { 0 < length from.now → IfOk result (λ n. 0 < n) }
        ensures honest { (sink self.old).honest ↔ (sink self.new).honest }
        ensures given { (sink self.old).honest → WasGiven result from.now (sink self.old).bytes (sink self.new).bytes }
        ensures counts { Counts result (sink self.old).faults (sink self.new).faults }
        ensures rest { sink_rest self.old self.new };

    ghost sink_rest_stays: { IsPreorder sink_rest };
}
