//! Address claims (SAE J1939-81): the frame by which a NAME claims an address, and the rules by which
//! it keeps, defends, moves or loses one.
#![tactic(auto)]

mod claim;
mod claimer;
mod error;
mod noted;

pub use claim::{Claim, claim_frame, read_claim};
pub use claimer::{ClaimStep, Claimer};
pub use error::ClaimError;
