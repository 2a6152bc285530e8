//! Standard error as a terminal.

use std::io;
use std::io::Write;

/// A terminal, which obeys what is written.
#[derive(Drop)]
pub(crate) struct Terminal<'a, R> {
    rt: &'a R,
}

impl<'a, R: Eprint> Terminal<'a, R> {
    /// That of this runtime.
    pub(crate) fn new(rt: &'a R) -> Terminal<'a, R> {
        Terminal { rt }
    }
}

/// What is no text is passed over.
impl<R: Eprint> Write for Terminal<'_, R> {
    fn write(&mut self, buf: &[u8]) -> io::Result<usize> {
        if let Ok(text) = std::str::from_utf8(buf) {
            self.rt.eprint(text)?;
        }
        Ok(buf.len())
    }

    fn flush(&mut self) -> io::Result<()> {
        Ok(())
    }
}
