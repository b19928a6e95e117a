//! The array that is served: each item is answered by it, from its memory or by calls on the devices, and the answer is given on a sink.
//! Each answer is the model's own or a refusal with its cause, and at every moment the devices stand for the array without the item or with it.
#![tactic(auto)]

mod answers;
mod appending;
mod buffers;
mod engine;
mod flushing;
mod said;
mod status;

pub use answers::give;
pub use buffers::ReadBuffers;
pub use engine::Engine;
pub use said::Said;
