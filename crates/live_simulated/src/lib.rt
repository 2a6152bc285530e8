//! A simulated unit that takes part in a bus that others are on: what `live_unit` does for a unit of any kind, for one whose kind
//! is known.
//!
//! So all that it does follows from its kind, what it heard and what it was told: it agrees to what the bus asks exactly if it is
//! willing.
#![tactic(auto)]

mod lent;
mod simulated;

pub use simulated::LiveSimulated;
