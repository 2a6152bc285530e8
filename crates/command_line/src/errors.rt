use safe_text::Seen;
use std::io;
use std::io::Write;

/// Standard error as a writer of lines. What a terminal obeys stands in them by its number.
#[derive(Drop)]
pub struct Errors<'a, R> {
    rt: &'a R,
}

impl<'a, R: Eprint> Errors<'a, R> {
    /// That of this runtime.
    pub fn new(rt: &'a R) -> Errors<'a, R> {
        Errors { rt }
    }
}

/// What is no text is passed over.
impl<R: Eprint> Write for Errors<'_, R> {
    fn write(&mut self, buf: &[u8]) -> io::Result<usize> {
        if let Ok(text) = std::str::from_utf8(buf) {
            self.rt.eprint(Seen::lines(text))?;
        }
        Ok(buf.len())
    }

    fn flush(&mut self) -> io::Result<()> {
        Ok(())
    }
}
