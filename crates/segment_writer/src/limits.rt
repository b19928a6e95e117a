/// The facts of a shard in a stripe.
pub const SHARD_FACTS: usize = 64;

/// The facts of a stripe, in its seven shards of data.
pub const STRIPE_FACTS: usize = 448;
