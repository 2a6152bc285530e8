//! A line of a log of a CAN bus: what candump, log2long and cansend write and read, as a frame with its time and its bus.
//!
//! `write_line` writes a line of a log as `candump -L` does, and `read_line` reads it back. What else stands in logs is
//! told apart: frames that are none of SAE J1939 (11-bit identifiers, remote frames, CAN FD, errors), frames that were
//! dropped, notes, and lines that are bad, each with its reason. How the times of a log are written tells `TimeForm`, whether they
//! count `Times`, and what an input looks like in which no frame was recognised `OtherLog`.
#![tactic(auto)]

mod bytes;
mod content;
mod date;
mod digits;
mod dropped;
mod line;
mod logged;
mod other;
mod plain;
mod read;
mod reason;
mod reason_kind;
mod time;
mod time_form;
mod times;
mod word;
mod words;

pub use line::{Foreign, Line};
pub use logged::write_line;
pub use other::OtherLog;
pub use read::{LINE_LIMIT, read_line};
pub use reason::Reason;
pub use reason_kind::{REASON_KINDS, ReasonKind};
pub use time::Time;
pub use time_form::TimeForm;
pub use times::Times;
