//! Lines that are told beside objects of JSON, as such objects; and those on a terminal, with a table below them.

use crate::screen::Screen;
use std::io::Write;
use std::{fmt, io};

/// Where a line is.
#[derive(Clone, Copy, PartialEq, Eq)]
enum Within {
    /// Before its first byte.
    Start,
    /// In an object, or in any line where objects are not asked for.
    Object,
    /// In a line that becomes a text of an object.
    Text,
}

/// How lines are told.
#[derive(Drop)]
pub(crate) enum Telling<T> {
    /// As they are.
    Lines,
    /// As objects.
    Objects,
    /// As they are, above a table.
    Screen(Screen<T>),
}

/// A writer of lines: where objects are asked for, a line that is none becomes `{"event":"notice","text":..}`.
#[derive(Drop)]
pub(crate) struct Notices<'a, W, T> {
    writer: &'a mut W,
    telling: Telling<T>,
    within: Within,
}

impl<'a, W: Write, T: Write> Notices<'a, W, T> {
    /// To this writer.
    pub(crate) fn new(writer: &'a mut W, telling: Telling<T>) -> Notices<'a, W, T> {
        Notices {
            writer,
            telling,
            within: Within::Start,
        }
    }

    /// Writes more of a line.
    fn put(&mut self, bytes: &[u8]) -> io::Result<()> {
        if self.within == Within::Start && bytes.first() == Some(&b'{') {
            self.within = Within::Object;
        }
        if self.within == Within::Start {
            self.writer.write_all(b"{\"event\":\"notice\",\"text\":\"")?;
            self.within = Within::Text;
        }
        match self.within {
            Within::Text => {
                let text = Quoted(std::str::from_utf8(bytes).unwrap_or("?"));
                write!(self.writer, "{text}")
            }
            _ => self.writer.write_all(bytes),
        }
    }

    /// Ends a line.
    fn end_line(&mut self) -> io::Result<()> {
        let end: &[u8] = match self.within {
            Within::Text => b"\"}\n",
            _ => b"\n",
        };
        self.within = Within::Start;
        self.writer.write_all(end)
    }

    /// Writes lines, in whole or in part.
    fn put_lines(&mut self, buf: &[u8]) -> io::Result<()> {
        let mut is_first = true;
        for piece in buf.split(|byte| *byte == b'\n') {
            if !is_first {
                self.end_line()?;
            }
            is_first = false;
            if !piece.is_empty() {
                self.put(piece)?;
            }
        }
        Ok(())
    }
}

/// A text between quotes of JSON.
#[derive(Clone, Copy)]
struct Quoted<'a>(&'a str);

impl fmt::Display for Quoted<'_> {
    fn fmt<W: fmt::Write>(&self, f: &mut fmt::Formatter<W>) -> fmt::Result {
        for character in self.0.chars() {
            match character {
                '"' => write!(f, "\\\"")?,
                '\\' => write!(f, "\\\\")?,
                _ => write!(f, "{character}")?,
            }
        }
        Ok(())
    }
}

impl<W: Write, T: Write> Write for Notices<'_, W, T> {
    fn write(&mut self, buf: &[u8]) -> io::Result<usize> {
        match &mut self.telling {
            Telling::Lines => self.writer.write_all(buf)?,
            Telling::Objects => self.put_lines(buf)?,
            Telling::Screen(screen) => screen.put(self.writer, buf)?,
        }
        Ok(buf.len())
    }

    fn flush(&mut self) -> io::Result<()> {
        self.writer.flush()
    }
}
