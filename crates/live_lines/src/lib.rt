//! The units of a vehicle on a real bus: a line in, lines out.
//!
//! Nothing here has a clock or a thread: times are handed in, in microseconds.
#![tactic(auto)]

mod answering;
mod beginning;
mod cyclic;
mod ear;
mod failing;
mod faults;
mod fleet;
mod member;
mod on_bus;
mod orders;
mod own_broadcast;
mod own_groups;
mod own_session;
mod playback;

pub use beginning::{Unheld, begin_with};
pub use ear::{Ear, HeardFrame};
pub use fleet::{Fleet, ended_short};
pub use member::Groups;
pub use on_bus::{OnBus, Units};
pub use playback::Playback;
