//! The outside of an array: its shelf of devices, the bytes that come in and the bytes that go out, on one clock.
//! A call fails only where its count of faults rises, and a stop at any moment leaves each byte that was synced.
#![tactic(auto)]

mod outside;
mod shelf;
mod streams;
mod synced;
mod tallies;

pub use outside::World;
pub use shelf::{Shelf, Span};
pub use streams::{Failed, Sink, Source};
pub use synced::write_synced;
pub use tallies::{Tallies, Tally};
