// What is written to new segments.
ghost use Rattle.std.specs.Prelude.{◌≡◌, ℕ, ◌<◌, ◌≤◌, List, length};
ghost use Rattle.pur_base.specs.declared.limits.TheConstants.{SEGMENT_SHARDS};
ghost use Rattle.segment_codec.specs.declared.position.TheConstants.{STRIPES};
ghost use Rattle.segment_io.specs.Stripes.{stripe_in, IsStripeOf};
ghost use Rattle.segment_writer.specs.Layout.{Layout};

use segment_codec::Header;
use segment_io::StripeData;

/// New segments, each with a header of its own.
pub(crate) trait Headed {
    /// How many they are, and their headers.
    ghost layout: { Self → Layout };

    /// What it takes to give the headers.
    ghost may_head: { Self → Type 0 };

    fn count(&self) -> usize
        ensures { result ≡ (layout self.now).count };

    /// The header of the segment of that number, with the shard 0.
    fn header(&self, number: usize) -> Header
        requires lawful { may_head self.now }
        requires number { number < (layout self.now).count }
        ensures { result ≡ (layout self.now).header number };
}

/// New segments, and what their stripes are to hold.
pub(crate) trait Filled: Headed {
    /// How many stripes a segment has.
    ghost stripe_count: { Self → ℕ → ℕ };

    /// What a stripe of a segment is to hold in its shards.
    ghost holds: { Self → ℕ → ℕ → List (List ℕ) → Type 0 };

    /// What it takes to fill them.
    ghost may_fill: { Self → Type 0 };

    /// Fills the stripes of the segment of that number, and gives how many they are.
    fn fill(&self, number: usize, stripes: &mut [StripeData]) -> usize
        requires lawful { may_fill self.now }
        requires number { number < (Self.layout self.now).count }
        requires stripes { STRIPES ≤ length stripes.old }
        ensures count { result ≡ stripe_count self.now number }
        ensures few { result ≤ STRIPES }
        // P and Q behind the data change nothing.
        ensures filled { (stripe : ℕ) (shards : List (List ℕ)) → stripe < result → IsStripeOf (stripe_in stripes.new stripe) shards → length shards ≡ SEGMENT_SHARDS → holds self.now number stripe shards };
}
