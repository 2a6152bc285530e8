//! Payloads of 9 to 1,785 bytes cut into packets and joined again, and what a sender owes (SAE J1939-21, transport protocol).
#![tactic(auto)]

mod assembly;
mod control;
mod message;
mod payload;
mod pieces;
mod run;
mod sending;
mod took;

pub use assembly::Assembly;
pub use control::{Control, ControlError};
pub use message::{control_frame, last, message_part, packet_frame};
pub use payload::Payload;
pub use pieces::{packets, part};
pub use run::Run;
pub use sending::Sending;
pub use took::Took;
