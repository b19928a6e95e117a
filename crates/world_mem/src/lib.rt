//! An honest world in memory: its devices, its input and its output, with a record of each call.
//! A call fails only where it is told to, or where its record finds no memory, and a stop leaves what it may leave.
#![tactic(auto)]

mod blank;
mod calls;
mod driving;
mod extra;
mod fused;
mod mem_world;
mod part;
mod plans;
mod record;
mod several;
mod shelf;
mod stopped;
mod streams;
mod turns;

pub use fused::Fused;
pub use mem_world::MemWorld;
pub use record::{Call, Faults, What};
pub use stopped::Choice;
