//! Diagnostic messages: the lamps with the active codes (DM1), the previously active codes (DM2) or the pending codes (DM6),
//! as SAE J1939-73 writes them in bytes.
#![tactic(auto)]

mod error;
mod kind;
mod laws;
mod method;
mod reading;
mod shown;
mod tolerant;
mod trouble;
mod writing;

pub use error::ReadError;
pub use kind::Kind;
pub use laws::{
    no_group_hides_another, strict_is_tolerant_without_trouble, what_is_read_strictly_is_read,
};
pub use method::ConversionMethod;
pub use reading::read;
pub use shown::Shown;
pub use tolerant::{
    GroupList, GroupRead, MessageRead, Tolerant, read_message, read_part, read_tolerantly,
};
pub use trouble::Trouble;
pub use writing::{payload, short_payload};
