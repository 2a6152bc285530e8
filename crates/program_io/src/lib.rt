//! What the subcommands of `j1939bench` share: what a command line asks for, why a run ends early, how a whole input is read, and
//! messages that no run waits for.
#![tactic(auto)]

mod argument_error;
mod failure;
mod fault;
mod input;
mod job;
mod messages;

pub use argument_error::ArgumentError;
pub use failure::Failure;
pub use fault::Fault;
pub use input::{LIMIT, read_input, read_text};
pub use job::{
    DecodeArguments, Job, LiveArguments, LogArguments, TesterArguments, WatchArguments, is_bus,
    path_of,
};
pub use messages::Messages;
