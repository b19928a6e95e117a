//! A world over files: each device a file of the folder `shelf`, the input and the output those of the process.
//! It tells no contents. A call fails only where the count of its file's faults rises, or that of the stream.
#![tactic(auto)]

mod files;
mod opening;
mod shape;
mod streams;

pub use files::Files;
pub use opening::NoShelf;
