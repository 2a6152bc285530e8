//! The fault memory of a control unit: its lamps, and its active, previously active and pending trouble codes (SAE J1939-73).
#![tactic(auto)]

mod change;
mod error;
mod memory;

pub use change::FaultChange;
pub use error::FaultError;
pub use memory::FaultMemory;
