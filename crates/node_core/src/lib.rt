//! A unit on the bus: what it owes to frames, and what it begins.
//!
//! It owes something to frames that it hears, and begins messages (SAE J1939-21, -73, -81).
#![tactic(auto)]

mod acceptance;
mod commanding;
mod error;
mod heard;
mod node;
mod out;
mod partial_commands;
mod parts;
mod requested;
mod session;

pub use acceptance::Acceptance;
pub use error::NodeError;
pub use heard::{Answer, Begun, Heard, Started, Withdraw};
pub use node::Node;
pub use out::{Out, Outs, Part, Piece};
