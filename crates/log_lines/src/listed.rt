use std::io;
use std::io::Write;

/// Writes what stands before the item at a place of so many: nothing, a comma, or `and` before the last.
pub(crate) fn write_mark<W: Write>(writer: &mut W, place: usize, count: usize) -> io::Result<()> {
    if place == 0 {
        Ok(())
    } else if place < count.saturating_sub(1) {
        write!(writer, ", ")
    } else {
        write!(writer, " and ")
    }
}
