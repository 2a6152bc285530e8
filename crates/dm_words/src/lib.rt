//! Lamps and trouble codes in words, as a person reads them, and as JSON (SAE J1939-73); and texts of identification.
#![tactic(auto)]

mod ascii_text;
mod codes;
mod failure_modes;
mod identification;
mod lamps;
mod objects;
mod parts;

pub use ascii_text::AsciiText;
pub use codes::CodeWords;
pub use failure_modes::failure_mode_words;
pub use identification::Identification;
pub use lamps::{LampBytes, LampWords};
pub use objects::{NO_COUNT, put_code, put_lamps, put_number, put_trouble, trouble_keys};
pub use parts::{BytesAmiss, PartWords, TroubleWords, unread_parts};
