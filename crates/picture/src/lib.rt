//! What is kept of a log for its picture, apart from `watch_page` for proof time alone: which unit held which address when, what it
//! told, where frames were missed, and the first and the last changes.
//!
//! All of it is bounded, whatever the log: a lane for each of the first units, and in each of a lane's tracks so many spans. As
//! long as no more are told, a track has the spans as they were told. Then neighbours are joined that are short together: such a
//! span begins and ends as they do, and has how many they were and the worst of what they show.
#![tactic(auto)]

mod appearance;
mod brief;
mod curve;
mod ever;
mod ever_in_log;
mod ever_lamps;
mod handover;
mod history;
mod lane;
mod moments;
mod picture;
mod series;
mod severity;
mod span;
mod track;
mod unit;
mod value_range;
mod values_in_log;
mod visit;

pub use appearance::Appearance;
pub use brief::{Brief, LISTED};
pub use curve::{Curve, CurvePoint, MOST_POINTS};
pub use ever::{EVER_CODES, Ever, EverCode};
pub use ever_in_log::{EVER_UNITS, EverInLog, SILENCE};
pub use handover::Handover;
pub use history::{Happened, History, Occurrence};
pub use lane::{Holding, RunEnd, UnitLane};
pub use moments::{FRESH, MOMENT_VALUES, MOMENTS, MomentValue};
pub use picture::{Axis, Picture};
pub use series::{SeriesKey, SignalSeries, value_of};
pub use severity::Severity;
pub use span::{Shows, Span};
pub use track::Track;
pub use unit::{DrawnUnit, Sender};
pub use value_range::{ToldValue, ValueRange};
pub use values_in_log::{MOST_SERIES, SignalsInLog, VALUE_BYTES, ValuesInLog};
pub use visit::{EarlierVisit, Since, SinceThen, VisitCode, VisitUnit};
