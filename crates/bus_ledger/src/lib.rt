//! The bus of one vehicle in one process: the wire, the seats on it with their queues, and the stations' windows.
//!
//! Stations have the first seats, from 0 on. Units get the seats behind them in order of joining, and a number is not used again. A
//! seat hears the frames of the others one at a time, in order; its own frames count as heard by it at once. The frame that
//! is carried next is the one with the lowest identifier among the first frames of the seats that have heard the whole
//! wire, as on a CAN bus (SAE J1939-21).
#![tactic(auto)]

mod bus;
mod error;
mod offers;
mod queued;
mod receive_window;
mod seat;
mod traffic;
mod wire;

pub use bus::{Bus, MOST_STATIONS, MOST_UNREAD};
pub use error::BusError;
pub use traffic::{Carried, CarriedFrame, Counts, QueuedFrame, StationSeat, Tag, Which};
