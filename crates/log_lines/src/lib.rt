//! The lines of a log or of a live bus, read one by one, their times in words, what is told beside the output of such a run (what
//! is bad, how far it is), and how it ends.
#![tactic(auto)]

mod absence;
mod bad_lines;
mod civil;
mod clock;
mod clock_form;
mod duration;
mod fault;
mod foreign_counts;
mod lines;
mod listed;
mod looks;
mod notices;
mod offset;
mod progress;
mod progress_reader;
mod progress_words;
mod recognised;
mod time;
mod wanted;
mod zone;

pub use absence::{Absence, FrameFate};
pub use clock::LineClock;
pub use clock_form::ClockForm;
pub use duration::DurationWords;
pub use fault::{LinesEnd, LogFault};
pub use lines::{LineReader, ROOM, next_line};
pub use notices::Notices;
pub use progress_reader::ProgressReader;
pub use progress_words::ProgressWords;
pub use time::{Fraction, TimeWords};
pub use wanted::{Wanted, WantedBus};
pub use zone::{LocalZone, ZoneFault};
