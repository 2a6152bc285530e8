//! A diagnostic station that takes part in a bus that others are on: it hears frames, says which frame it writes when, and carries
//! out one order at a time, each with one verdict.
//!
//! It has no clock and no bus: the time is handed in with each call, in microseconds of any clock that does not go back, and a
//! frame that it answers is for its caller to write. The frames that it wrote may come back to it, as a bus tells them.
#![tactic(auto)]

mod error;
mod going;
mod hearing;
mod laws;
mod loss;
mod open;
mod order;
mod pulled;
mod sign;
mod station;
mod times;
mod turn;
mod verdict;
mod waiting;

pub use error::{HearError, OrderError};
pub use laws::{
    a_clear_stays_out_undoubted, a_packet_is_asked_for_again_twice, lists_are_what_was_told,
    packets_are_told_in_order, positive_is_acknowledged, what_is_missing_is_asked_for,
};
pub use open::{Asked, OpenOrder, Part, Progress, Stage};
pub use order::{Clearing, Order};
pub use pulled::{Pulled, Told};
pub use station::LiveStation;
pub use times::StationTimes;
pub use verdict::{Doubt, Finding, Verdict};
