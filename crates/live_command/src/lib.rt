//! `live`: the units of a vehicle on a real bus, through two pipes; and `run`, which has anyone take part in one so.
//!
//! One thread reads the lines of the bus, and where that is wanted another one reads what is asked; the caller's writes frames when
//! they are due. All that they do stands in crates without threads and without a clock.
#![tactic(auto)]

mod playing;
mod reading;
mod shared;
mod words;
mod writing;

pub use words::{
    BusWays, bus_of, gap_of, is_by_lines, look_at_live_words, number_of, pace_of, settle_of,
};
pub use writing::{live, run};
