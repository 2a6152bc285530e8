//! The subcommands over the lines of a log or of a live bus: what their words mean, and how a run ends the program.
#![tactic(auto)]

mod argument_errors;
mod decoding;
mod ending;
mod local;
mod shop;
mod watch_words;
mod watching;

pub use argument_errors::{look_at_decode_words, look_at_watch_words};
pub use decoding::decode;
pub use shop::ShopFiles;
pub use watching::{WatchRequest, watch};
