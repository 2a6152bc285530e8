//! The text of a snapshot, apart from `script_run` for proof time alone: a line for each NAME, and one of what the station missed.
//!
//! ```text
//! 00000000000000C0 none      0      0      0 ----    -
//! 00000000000000B0   10      1      0      0 00FF    0
//! missed 0 unread 0
//! ```
//!
//! A line has the NAME, the address in 4 places or `none`, how many DM1, how many DM2 and how many DM6 entries the NAME has in
//! 6 places each, and of the newest DM1 entry the lamps in 4 hexadecimal digits, or `----`, and the number of codes in 4
//! places, or `-`. A number that is wider than its places is written whole.
#![tactic(auto)]

ghost use Rattle.std.specs.Prelude.{OnOk};
ghost use Rattle.std.specs.Io.KnownBytes.{Appends};
ghost use Rattle.report.specs.Text.{report_text};

mod line;
mod shown;

pub use garage::{Newest, RowLine, Snapshot};
use line::{write_row, write_total};
pub use shown::write_shown;
use std::io;
use std::io::Write;

/// Writes the text of a snapshot. Where it answers Ok, the bytes added to the writer are that text.
///
/// # Errors
/// - what the writer answered first; how much was written by then is not told.
#[tactic(auto, using(crate::proofs::Appending::row_more, crate::proofs::Appending::total_last, crate::proofs::Appending::nothing_yet))]
pub fn write<W: Write>(snapshot: &Snapshot, writer: &mut W) -> io::Result<()>
    ensures { OnOk result (Appends (W.contents writer.old) (W.contents writer.new) (report_text snapshot.now)) }
{
    for row in snapshot.rows.as_slice() {
        write_row(writer, row)?;
    }
    write_total(writer, snapshot.missed, snapshot.unread)
}
