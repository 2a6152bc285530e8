//! A control unit: its NAME, its fault memory, and what the bus may ask of it; and the units of a simulated vehicle.
#![tactic(auto)]

mod kind;
mod question;
mod refused;
mod simulated;
mod unit;

pub use kind::UnitKind;
pub use question::{Clear, Question};
pub use refused::Refused;
pub use simulated::Simulated;
pub use unit::Unit;
