//! Requests from the bytes of a source, and replies as the bytes of a sink, each through a buffer of 64 KiB.
//! What is read is the grammar's next item, and what is written is the reply's text; a failed call of the outside comes back as `Failed`.
#![tactic(auto)]

mod data;
mod parse;
mod reader;
mod reply_lines;
mod reply_writer;
mod words;

pub use reader::{Item, Reader};
pub use reply_lines::put_data_line;
pub use reply_writer::{ReplyWriter, give_all};
