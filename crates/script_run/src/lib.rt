//! A script carried out in a garage: `script` answers each line, `check` tells those that are not accepted, and `log` writes
//! the wire.
#![tactic(auto)]

mod answer_sink;
mod answers;
mod bench;
mod checking;
mod garage_commands;
mod line_reporter;
mod lines;
mod logging;
mod place;
mod unit_commands;
mod wire;

pub use answers::script;
pub use checking::check;
pub use logging::log;
