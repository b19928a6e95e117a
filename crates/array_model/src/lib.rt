//! The plain array as a program: named lists of sectors in memory, in order of creation.
//! Each request does to it, and answers, what the definition of the plain array says; it takes memory to create, to snapshot and to clone alone.
#![tactic(auto)]

mod plain;
mod step;

pub use plain::{Held, ObjectEntry, Plain};
pub use step::{PlainReply, plain_step, refusal_of};
