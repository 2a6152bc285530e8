//! Requests and acknowledgments (SAE J1939-21) and the commanded address (SAE J1939-81): read and
//! written.
#![tactic(auto)]

mod acknowledgment;
mod commanded;
mod not_this;
mod request;

pub use acknowledgment::Ack;
pub use commanded::Commanded;
pub use not_this::NotThis;
pub use request::Request;
