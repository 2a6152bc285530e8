//! The functions that C calls. Each takes a handle that it may find empty, and answers the number of a `Status`.

mod hearing;
pub(crate) mod lists;
mod live;
mod logs;
mod open;
mod orders;
mod readings;
mod saving;
mod series;
mod simulated;
pub(crate) mod units;
