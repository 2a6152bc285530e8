//! `watch`: the lines of a log or of a live bus are read one by one, each change is written at once, and at the end a
//! report by NAME.
#![tactic(auto)]

mod absent;
mod bus_report;
mod ever;
mod heard;
mod hearing;
mod kept;
mod lines;
mod options;
mod over;
mod page;
mod run;
mod table;
mod units;
mod values;

pub use bus_report::BusReport;
pub use bus_watch::Limits;
pub use options::WatchOptions;
pub use run::{Watched, watch};
pub use shop_texts::UnitTexts;
pub use watch_reports::{Assumed, WatchForm, read_visit};
