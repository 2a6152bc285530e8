//! The diagnostic station: what it keeps of the frames that it reads, and what it answers (SAE J1939-21, -73 and -81).
#![tactic(auto)]

mod ended;
mod error;
mod laws;
mod origin;
mod outcome;
mod reaction;
mod replies;
mod session;
mod station;

pub use bus_model::{Change, Displaced};
pub use entry_lists::{AckSeen, Row};
pub use error::StationError;
pub use laws::lists_are_what_was_heard;
pub use outcome::Outcome;
pub use reaction::{Ask, Reaction};
pub use session::Session;
pub use station::Station;
