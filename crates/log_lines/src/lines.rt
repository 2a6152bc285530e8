use crate::fault::LogFault;
use candump_line::LINE_LIMIT;
use std::alloc::Global;
use std::io::{BufRead, BufReader, Read, Write};

/// The most bytes that are read or written at once.
pub const ROOM: usize = 65_536;

/// The most bytes that are kept of a line with its end: one more than LF or CR LF behind a line of the greatest length has.
const MOST: usize = LINE_LIMIT + 2;

/// The lines of an input, read one by one.
#[derive(Drop)]
pub struct LineReader<R> {
    reader: BufReader<R>,
    line: Vec<u8>,
}

impl<R: Read + Drop> LineReader<R> {
    /// Those of this reader.
    ///
    /// # Errors
    /// `Memory`: memory was refused.
    pub fn new(alloc: Global, reader: R) -> Result<LineReader<R>, LogFault> {
        match BufReader::with_capacity(alloc, ROOM, reader) {
            Ok(reader) => Ok(LineReader {
                reader,
                line: Vec::new(alloc),
            }),
            Err(error) => Err(LogFault::of_read(error)),
        }
    }

    /// The next line, with its end, as `next_line` reads it; none where there is none.
    ///
    /// # Errors
    /// - `Read`, `Memory`: it could not be read.
    /// - `Write`: what was written could not go out.
    pub fn next<W: Write>(&mut self, writer: &mut W) -> Result<Option<&[u8]>, LogFault> {
        if next_line(&mut self.reader, writer, &mut self.line)? {
            Ok(Some(self.line.as_slice()))
        } else {
            Ok(None)
        }
    }
}

/// Reads the next line, with its end. Of a line that is too long, one byte more than a line may have is kept. Tells whether
/// there was one.
///
/// Before it waits for a line, what was written goes out.
pub fn next_line<R: Read, W: Write>(
    reader: &mut BufReader<R>,
    writer: &mut W,
    line: &mut Vec<u8>,
) -> Result<bool, LogFault> {
    line.clear();
    if take_buffered(reader, line)? {
        return Ok(true);
    }
    if let Err(error) = writer.flush() {
        return Err(LogFault::of_write(error));
    }
    wait_for_line(reader, line)
}

/// Takes a whole line that was already read. Tells whether there is one.
fn take_buffered<R: Read>(reader: &mut BufReader<R>, line: &mut Vec<u8>) -> Result<bool, LogFault> {
    let buffered = reader.buffer();
    match memchr::memchr(b'\n', buffered) {
        Some(end) if end < MOST => {
            line.extend_from_slice(&buffered[..end + 1])?;
            reader.consume(end + 1);
            Ok(true)
        }
        _ => Ok(false),
    }
}

/// Reads a line of which no end was read yet, or one that is too long.
fn wait_for_line<R: BufRead>(reader: &mut R, line: &mut Vec<u8>) -> Result<bool, LogFault> {
    let read = match reader.by_ref().take(MOST as u64).read_until(b'\n', line) {
        Ok(read) => read,
        Err(error) => return Err(LogFault::of_read(error)),
    };
    if read == MOST && line.last() != Some(&b'\n') {
        if let Err(error) = reader.skip_until(b'\n') {
            return Err(LogFault::of_read(error));
        }
    }
    Ok(read > 0)
}
