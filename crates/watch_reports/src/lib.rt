//! What a watched bus tells, as it is written: each change, and the report by NAME; as text, as JSON objects, or as comma-separated
//! values.
#![tactic(auto)]

mod assumed;
mod broken;
mod cells;
mod earlier;
mod ever_object;
mod ever_rows;
mod ever_text;
mod form;
mod identifications;
mod object_parts;
mod objects;
mod options;
mod report_object;
mod report_writer;
mod reported_bus;
mod rows;
mod since;
mod text;
mod text_report;
mod units;
mod value_lines;
mod value_objects;
mod value_rows;

pub use assumed::Assumed;
pub use earlier::read_visit;
pub use form::{WatchForm, write_broken, write_changes, write_identification, write_report};
pub use options::{ReportOptions, ReportPart, Reported};
pub use units::KINDS;
