//! One line of a script: a command as its words spell it, and the station that it is of.
//!
//! Words stand apart by one or more spaces. Numbers are decimal digits alone, leading zeros are read. Keywords are
//! lower case. Before a command of a station `at` and the station's number, from 0, may stand. What the words mean to a garage is
//! no matter of this crate: a NAME that is none, a parameter group number that is too large, a frame that is none and a station
//! that is not there are kept as such, so that the one who carries the command out can refuse it.
#![tactic(auto)]

mod command;
mod frames;
mod numbers;
mod read;
mod reasons;
mod words;

pub use command::{
    Asked, CodeChange, Command, FrameWords, NameWord, Receiver, ScriptLine, StationWords,
};
pub use numbers::{read_lamps, read_number, read_small_number};
pub use read::{is_silent, read_line};
pub use reasons::{ExpectedWord, LineReason, reason};
pub use words::Words;
