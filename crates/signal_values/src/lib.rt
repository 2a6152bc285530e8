//! The values of signals: a DBC file says where each stands in a group's payload, and what its bits mean; tables of the program's own
//! say it of diagnostic messages that are no lists of codes.
//!
//! A value is exact: bits are a number, which is multiplied and added to as decimals, and no digit is rounded.
#![tactic(auto)]

mod dbc_lines;
mod dbc_parts;
mod dbc_words;
mod decimal;
mod decimal_text;
mod diagnostic;
mod diagnostic_rows;
mod diagnostic_words;
mod field;
mod message_bits;
mod number;
mod payload;
mod reading;
mod scaling;
mod sense;
mod signal;
mod signals;

pub use decimal::{Decimal, MOST_PLACES};
pub use diagnostic::{Diagnostic, DiagnosticPart, DiagnosticPayload, MOST_ROWS, Records};
pub use field::Field;
pub use number::number_of;
pub use payload::ByteOrder;
pub use reading::{MOST_BYTES, MOST_SIGNALS, MOST_TEXTS};
pub use scaling::Scaling;
pub use sense::Sense;
pub use signal::{ByteDigits, Layout, Meaning, Signal, SignalValue, Taken, ValueText};
pub use signals::{GroupWords, SignalGroup, Signals};
