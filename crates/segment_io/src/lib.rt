//! Segments on the drives: stripes of nine shards are appended and closed under headers, and their sectors read back, with two drives lost too.
//! Only the units of the segment are written, and a drive is lost only where its count of faults rose.
#![tactic(auto)]

mod appending;
mod closing;
mod gathering;
mod open;
mod reading;
mod rebuilding;
mod runs;
mod units;

pub use closing::{Closed, sync_drives};
pub use gathering::StripeBuffer;
pub use open::{Open, RUN_ROOM, StripeData};
pub use reading::read_sector;
pub use rebuilding::{RebuildFault, rebuild_shard};
pub use runs::read_sectors;
pub use units::are_places;
