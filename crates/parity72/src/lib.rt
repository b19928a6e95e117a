// Keeps nothing: P and Q of seven data shards, their sum and the sum of two to the i times the i-th in GF(256) with x^8 + x^4 + x^3 + x^2 + 1 (11D).
// Promises that what is encoded is a codeword, and that whichever two of its nine shards are lost come back.
#![tactic(auto)]

mod bytes;
mod columns;
mod deciding;
mod encoding;
mod lanes;
mod layout;
mod recovery;

pub use bytes::{div, double, mul, power_of_two};
pub use deciding::any_seven_decide;
pub use encoding::encode;
pub use layout::{DATA_SHARDS, SHARD_BYTES, SHARDS};
pub use recovery::recover;
