//! The boot region of a shelf: records are stored in its two slots, each body behind a gate that is closed and opened around it.
//! At every moment of a store or a settling the devices stand for the arrays for which they stood.
#![tactic(auto)]

mod gates;
mod loading;
mod members;
mod reading;
mod regions;
mod settling;
mod slot;
mod storing;

pub use gates::{close_gates, open_gates, write_bodies};
pub use loading::{LoadFault, Loaded, load};
pub use members::write_members;
pub use reading::read_regions;
pub use regions::{REGION_BYTES, Regions};
pub use settling::settle;
pub use slot::Slot;
pub use storing::{TooFew, store};
