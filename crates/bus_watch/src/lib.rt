//! A diagnostic reader over the lines of a log or of a live bus: a listener reads them, and what changes is told.
//!
//! Each line is at most one reading of the listener: its frame, or frames that were missed. What a reading lists under a NAME, or
//! under an address that nobody has claimed, goes to lists of runs of equal entries (`listener`), so memory grows by what changes.
//! After every line each list is what was heard of the readings of the lines so far.
#![tactic(auto)]

mod broken;
mod buses;
mod change;
mod contests;
mod counts;
mod half_text;
mod half_texts;
mod held;
mod identification_words;
mod identified;
mod key;
mod laws;
mod lists;
mod methods;
mod pairs;
mod run;
mod run_list;
mod run_table;
mod selection;
mod shown_entry;
mod teller;
mod text_list;
mod told_text;
mod unit_runs;
mod unowned;
mod watch;

pub use broken::{BrokenBy, BrokenMessage};
pub use buses::{BusShown, BusWatch, Buses, Hearers, MOST_BUSES};
pub use change::{Changes, WatchChange};
pub use counts::WatchCounts;
pub use held::Limits;
pub use identification_words::{IDENTIFICATIONS, IdentificationWords, mark_of_cut, told_front};
pub use laws::{shown_lists_are_exact, shown_lists_are_what_was_overheard};
pub use listener::{Silence, Who};
pub use methods::{MOST_METHODS, UnitMethod, UnitMethods};
pub use run::EntryRun;
pub use selection::{Selection, UnitShown};
pub use teller::Teller;
pub use watch::{Watch, WatchSettings};
