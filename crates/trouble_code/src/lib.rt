//! Diagnostic trouble codes and lamps, as SAE J1939-73 spells them in bytes.
//!
//! A trouble code ([`Dtc`]) is a suspect parameter number (SPN), a failure mode identifier (FMI) and an occurrence
//! count, in four bytes. The lamps ([`Lamps`]) are four lamp states and four flash states of two bits each, in two bytes.
#![tactic(auto)]

mod codes;
mod dtc;
mod error;
mod lamps;

pub use codes::Codes;
pub use dtc::{Dtc, GREATEST_FMI, GREATEST_SPN};
pub use error::DtcError;
pub use lamps::{LampName, Lamps};
