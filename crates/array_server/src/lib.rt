//! The program's commands in any world: the array that the devices hold is opened, and the requests of a source are answered on a sink, or a new array is made on blank devices.
//! The output is the text of one reply an item of the input, each the model's own or a refusal with its cause, and what is acknowledged lasts:
//! at a stop it is what the replies tell that were whole by then, whatever failed.
#![tactic(auto)]

mod answering;
mod command;
mod making;
mod session;

pub use command::array_main;
pub use making::init;
pub use session::serve;
