//! A unit that takes part in a bus that others are on: it hears frames, and says which frame it writes when.
//!
//! It has no clock and no bus: the time is handed in with each call, in microseconds of any clock that does not go back, and a
//! frame that it answers is for its caller to write.
#![tactic(auto)]

mod aborting;
mod again;
mod boxed;
mod clock;
mod echo;
mod error;
mod hearing;
mod node;
mod queue;
mod told;
mod unit;
mod waiting;
mod watch;

pub use aborting::{ALREADY_IN_SESSION, ASKED_TOO_OFTEN, CLEARED_WHILE_SENDING};
pub use clock::{ANSWER_WITHIN, Asked, HELD_FOR, UnitClock, UnitSettings};
pub use echo::Echo;
pub use error::LiveError;
pub use node::{Act, LiveNode, frame_from, lane_due};
pub use queue::{Lane, MOST_PUT, Queue, QueueCounts};
pub use unit::LiveUnit;
pub use watch::AddressWatch;
