//! A listener for C: one who hears all messages on a bus, and takes no part. Each function takes a handle that it may find empty.

mod lists;
mod open;
mod readings;
mod series;
mod units;
