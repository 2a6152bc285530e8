//! `tester`: a station on a real bus, through two pipes, which asks, reads and clears.
//!
//! What it does for an order stands in `live_station`. Here are the words of orders, which of them is next, and how each verdict is told.
#![tactic(auto)]

mod lines;
mod notices;
mod objects;
mod on_bus;
mod order;
mod order_words;
mod part;
mod queue;
mod report;
mod reported;
mod run;
mod screen;
mod teller;
mod turns;
mod wanted;
mod words;

pub use report::ReportFile;
pub use run::{TesterFiles, TesterWords, tester};
pub use words::look_at_tester_words;
