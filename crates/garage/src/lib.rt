//! The bus of one vehicle with its units and its stations, and its journal.
//!
//! The journal has all that happens on the bus. What a step comes to stands in `answers`, why it is refused in `error`, the room that
//! it needs in `room`, and what it queues in `queueing`.
#![tactic(auto)]

mod answers;
mod carrying;
mod error;
mod garage;
mod hearing;
mod opening;
mod orders;
mod outside;
mod parked;
mod plug;
mod queries;
mod queueing;
mod readings;
mod room;
mod rounds;
mod seats;
mod shown;
mod snapshot;
mod steps;

pub use answers::{Begin, HeardOne, Rounds};
pub use bus_ledger::{Carried, Counts, MOST_STATIONS};
pub use error::GarageError;
pub use garage::Garage;
pub use opening::Setting;
pub use plug::{Parked, Plug};
pub use snapshot::{Newest, RowLine, Snapshot};
