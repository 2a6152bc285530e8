ghost use Rattle.std.specs.Prelude.{◌≡◌, ◌+◌, ◌≤◌, ◌++◌, length, codes, OnOk};
ghost use Rattle.std.specs.List.{flat_map};
ghost use Rattle.std.specs.Io.KnownBytes.{Appends, append_known};
ghost use Rattle.std.specs.Fmt.{decimal};
ghost use Rattle.report.specs.Text.{lamps_text, line_end};
ghost use Rattle.report.specs.Shown.{code_text, head_text, entries_text, shown_text};

use dm_messages::Shown;
use safe_text::TextBuffer;
use std::io;
use std::io::Write;
use trouble_code::{Dtc, Lamps};

/// Writes what the station shows of a NAME: how many messages, and each of them. Where it answers Ok, the bytes added to the
/// writer are that text.
///
/// # Errors
/// - what the writer answered first; how much was written by then is not told.
#[tactic(auto, using(crate::proofs::Held::joined_held))]
pub fn write_shown<W: Write>(shown: &[Shown], writer: &mut W) -> io::Result<()>
    ensures { OnOk result (Appends (W.contents writer.old) (W.contents writer.new) (shown_text shown.now)) }
{
    let mut text = TextBuffer::new();
    push_count(&mut text, shown.len());
    write_entries(&mut text, shown, writer)?;
    write_end(&mut text, writer)
}

fn push_count(text: &mut TextBuffer, count: usize)
    requires { length text.old ≤ 200 }
    ensures { text.new ≡ text.old ++ (codes "shown " ++ decimal count) }
{
    text.push_text("shown ");
    text.push_decimal(count as u64);
}

fn write_end<W: Write>(text: &mut TextBuffer, writer: &mut W) -> io::Result<()>
    ensures { OnOk result (Appends (append_known (W.contents writer.old) text.old) (W.contents writer.new) line_end) }
{
    text.make_room(1, writer)?;
    text.push(b'\n');
    text.write_to(writer)
}

/// Writes the messages, each behind what parts it from the one before. (Where the text has room nothing is written, and no result
/// is made: that halves the time.)
#[tactic(auto, using(crate::proofs::Held::code_more, crate::proofs::Held::entry_more, crate::proofs::Held::all_entries, crate::proofs::Appending::nothing_yet))]
fn write_entries<W: Write>(text: &mut TextBuffer, shown: &[Shown], writer: &mut W) -> io::Result<()>
    ensures { OnOk result (Appends (append_known (W.contents writer.old) text.old) (append_known (W.contents writer.new) text.new)
        (entries_text 0 shown.now)) }
{
    for (place, entry) in shown.iter().enumerate() {
        if !text.has_room(9) {
            text.write_to(writer)?;
        }
        push_head(text, place, entry);
        let codes = entry.codes.as_slice();
        for code in codes {
            if !text.has_room(63) {
                text.write_to(writer)?;
            }
            push_code(text, *code);
        }
    }
    Ok(())
}

/// Adds a message up to its codes.
fn push_head(text: &mut TextBuffer, place: usize, entry: &Shown)
    requires { length text.old + 9 ≤ 256 }
    ensures { text.new ≡ text.old ++ head_text place entry.now }
{
    if place == 0 {
        text.push(b':');
    } else {
        text.push_text(" |");
    }
    push_lamps(text, entry.lamps);
    if entry.codes.as_slice().is_empty() {
        text.push_text(" -");
    }
}

fn push_lamps(text: &mut TextBuffer, lamps: Lamps)
    requires { length text.old + 5 ≤ 256 }
    ensures text { text.new ≡ text.old ++ (codes " " ++ lamps_text lamps) }
    ensures len { length text.new ≡ length text.old + 5 }
{
    let [lamp, flash] = lamps.to_bytes();
    text.push(b' ');
    text.push_hex(lamp);
    text.push_hex(flash);
}

fn push_code(text: &mut TextBuffer, code: Dtc)
    requires { length text.old + 63 ≤ 256 }
    ensures { text.new ≡ text.old ++ code_text code }
{
    text.push(b' ');
    text.push_decimal(u64::from(code.spn()));
    text.push(b'/');
    text.push_decimal(u64::from(code.fmi()));
    text.push(b'/');
    text.push_decimal(u64::from(code.count()));
}
