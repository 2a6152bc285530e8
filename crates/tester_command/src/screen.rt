//! Lines on a terminal, below which a table stands that is drawn anew.

use std::alloc::Global;
use std::io;
use std::io::Write;

/// Stands before and behind a table among lines. No line has it.
pub(crate) const TABLE_MARK: u8 = 0x0C;

/// A terminal: lines, and the table below them. What it obeys goes to it by a way of its own: among lines it would be made harmless.
#[derive(Drop)]
pub(crate) struct Screen<T> {
    terminal: T,
    table: Vec<u8>,
    /// How many lines of the table stand there.
    rows: usize,
    /// Whether the line above is whole.
    is_whole: bool,
}

impl<T: Write> Screen<T> {
    /// With nothing on it.
    pub(crate) fn new(alloc: Global, terminal: T) -> Screen<T> {
        Screen {
            terminal,
            table: Vec::new(alloc),
            rows: 0,
            is_whole: true,
        }
    }

    /// Writes lines above the table, and what stands between marks as the table.
    pub(crate) fn put<W: Write>(&mut self, writer: &mut W, lines: &[u8]) -> io::Result<()> {
        let mut is_table = false;
        for piece in lines.split(|byte| *byte == TABLE_MARK) {
            if is_table {
                self.change(piece)?;
            } else {
                self.put_lines(writer, piece)?;
            }
            is_table = !is_table;
        }
        self.draw(writer)
    }

    /// Writes lines above the table, which is drawn again behind them.
    fn put_lines<W: Write>(&mut self, writer: &mut W, lines: &[u8]) -> io::Result<()> {
        let Some(last) = lines.last() else {
            return Ok(());
        };
        self.erase()?;
        self.is_whole = *last == b'\n';
        writer.write_all(lines)
    }

    /// Takes another table.
    fn change(&mut self, table: &[u8]) -> io::Result<()> {
        if self.table.as_slice() == table {
            return Ok(());
        }
        self.erase()?;
        self.table.clear();
        self.table.extend_from_slice(table)?;
        Ok(())
    }

    /// Takes the table away.
    fn erase(&mut self) -> io::Result<()> {
        let rows = self.rows;
        if rows == 0 {
            return Ok(());
        }
        self.rows = 0;
        write!(self.terminal, "\x1b[{rows}A\x1b[J")
    }

    /// Draws the table where it does not stand: each of its lines is one of the terminal's, of which what does not fit is left out.
    fn draw<W: Write>(&mut self, writer: &mut W) -> io::Result<()> {
        if self.rows > 0 || self.table.is_empty() || !self.is_whole {
            return Ok(());
        }
        self.rows = lines_in(self.table.as_slice());
        self.terminal.write_all(b"\x1b[?7l")?;
        writer.write_all(self.table.as_slice())?;
        self.terminal.write_all(b"\x1b[?7h")
    }
}

/// How many lines end there.
fn lines_in(table: &[u8]) -> usize {
    table.iter().filter(|byte| **byte == b'\n').count()
}
