//! The command line of `j1939bench`: its words read as a job, and the pages of its help; and what else each program begins and
//! ends with: the files that are named, standard error as a writer, and what is told of a run that ended early.
//!
//! A subcommand is a table of its options, and the words that are found for them. A text of a page is a function's answer, and no
//! constant, so that who adds it to a command knows nothing of it: its letters would stand in each search.
#![tactic(auto)]

mod decode;
mod ending;
mod errors;
mod fault;
mod files;
mod live;
mod options;
mod reading;
mod script;
mod tester;
mod threads;
mod watch;
mod words;

pub use ending::{done_elsewhere, ended};
pub use errors::Errors;
pub use fault::LineFault;
pub use files::{open, read_file};
pub use reading::parse;
pub use words::{asked_for, read_words};
