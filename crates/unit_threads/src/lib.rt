//! The units of a garage, each in a thread of its own, and the station in the caller's; `threads` has those of a vehicle run so.
//!
//! All threads share the garage under one lock. The value under it is a lawful garage whenever the lock is free: that is what
//! a `Garage` is. Each event is one call within one taking of the lock, so a run of threads is a list of events of the garage.
//! A unit thinks, and its gate waits, without the lock.
#![tactic(auto)]

mod command;
mod compare;
mod ended;
mod running;
mod shared;
mod turn;

pub use command::threads;
pub use ended::{EndReason, Ended};
pub use running::{Gate, Ran, run};
pub use turn::{one_read, one_turn};
