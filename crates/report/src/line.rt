ghost use Rattle.std.specs.Prelude.{◌≡◌, ◌<◌, ◌++◌, OnOk, codes};
ghost use Rattle.std.specs.Io.KnownBytes.{Appends};
ghost use Rattle.std.specs.Fmt.{decimal};
ghost use Rattle.name_field.specs.NameText.{name_text};
ghost use Rattle.report.specs.Text.{row_text, address_text, newest_text, lamps_text, line_end, total_text, right};

use garage::{Newest, RowLine};
use name_field::Name;
use std::io;
use std::io::Write;
use trouble_code::Lamps;

/// Writes the line of a NAME.
pub(crate) fn write_row<W: Write>(writer: &mut W, row: &RowLine) -> io::Result<()>
    ensures { OnOk result (Appends (W.contents writer.old) (W.contents writer.new) (row_text row.now)) }
{
    write_name(writer, row.name)?;
    write_address(writer, row.address)?;
    write_count(writer, row.dm1)?;
    write_count(writer, row.dm2)?;
    write_count(writer, row.dm6)?;
    write_newest(writer, row.newest)?;
    Ok(())
}

fn write_name<W: Write>(writer: &mut W, name: Name) -> io::Result<()>
    ensures { OnOk result (Appends (W.contents writer.old) (W.contents writer.new) (name_text name ++ codes " ")) }
{
    write!(writer, "{name} ")
}

#[tactic(auto, using(crate::proofs::Padded::right_number))]
fn write_address<W: Write>(writer: &mut W, address: Option<u8>) -> io::Result<()>
    ensures { OnOk result (Appends (W.contents writer.old) (W.contents writer.new) (address_text address ++ codes " ")) }
{
    match address {
        Some(held) => write!(writer, "{held:>4} "),
        None => write!(writer, "none "),
    }
}

#[tactic(auto, using(crate::proofs::Padded::right_number))]
fn write_count<W: Write>(writer: &mut W, count: usize) -> io::Result<()>
    ensures { OnOk result (Appends (W.contents writer.old) (W.contents writer.new) (right 6 (decimal count) ++ codes " ")) }
{
    write!(writer, "{count:>6} ")
}

#[tactic(auto, using(crate::proofs::Padded::right_number, crate::proofs::Appending::lamps_then_codes))]
fn write_newest<W: Write>(writer: &mut W, newest: Option<Newest>) -> io::Result<()>
    ensures { OnOk result (Appends (W.contents writer.old) (W.contents writer.new) (newest_text newest ++ codes "\n")) }
{
    match newest {
        Some(entry) => {
            write_lamps(writer, entry.lamps)?;
            write_codes(writer, entry.codes)
        }
        None => writeln!(writer, "----    -"),
    }
}

#[tactic(auto, using(crate::proofs::Padded::two_digits))]
fn write_lamps<W: Write>(writer: &mut W, lamps: Lamps) -> io::Result<()>
    ensures { OnOk result (Appends (W.contents writer.old) (W.contents writer.new) (lamps_text lamps ++ codes " ")) }
{
    let [lamp, flash] = lamps.to_bytes();
    write!(writer, "{lamp:02X}{flash:02X} ")
}

#[tactic(auto, using(crate::proofs::Padded::right_number))]
fn write_codes<W: Write>(writer: &mut W, count: usize) -> io::Result<()>
    ensures { OnOk result (Appends (W.contents writer.old) (W.contents writer.new) (right 4 (decimal count) ++ line_end)) }
{
    writeln!(writer, "{count:>4}")
}

/// Writes the last line.
pub(crate) fn write_total<W: Write>(writer: &mut W, missed: u64, unread: u64) -> io::Result<()>
    ensures { OnOk result (Appends (W.contents writer.old) (W.contents writer.new) (total_text missed unread)) }
{
    writeln!(writer, "missed {missed} unread {unread}")
}
