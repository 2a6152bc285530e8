ghost use Rattle.std.specs.Prelude.{◌≡◌};

use crate::progress::Progress;
use std::io;
use std::io::{Read, Write};
use std::rt::Clock;
use std::time::Instant;

/// A reader that gives what another one gives, and tells on `errors` how far it is.
///
/// That is a line after two seconds, and one each time twice as many seconds have passed, behind a read. A line that cannot be
/// written is lost. Nothing is told where the clock cannot be read.
#[derive(Drop)]
pub struct ProgressReader<'a, R, C, E> {
    reader: R,
    clock: &'a C,
    errors: E,
    size: Option<u64>,
    start: Option<Instant>,
    progress: Progress,
}

impl<'a, R, C: Clock, E> ProgressReader<'a, R, C, E> {
    /// A reader over this one. Where `is_told`, it is told how far it is: in bytes where a size is given, which is that of a file,
    /// else in lines.
    pub fn new(
        reader: R,
        clock: &'a C,
        errors: E,
        size: Option<u64>,
        is_told: bool,
    ) -> ProgressReader<'a, R, C, E>
        ensures { result.reader ≡ reader }
    {
        ProgressReader {
            reader,
            clock,
            errors,
            size,
            start: start_of(clock, is_told),
            progress: Progress::new(),
        }
    }
}

/// When reading begins; none where nothing is told.
fn start_of<C: Clock>(clock: &C, is_told: bool) -> Option<Instant> {
    if !is_told {
        return None;
    }
    match Instant::now(clock) {
        Ok(start) => Some(start),
        Err(_) => None,
    }
}

impl<'a, R, C: Clock, E: Write> ProgressReader<'a, R, C, E> {
    /// These bytes were read: tells how far it is, where it is time.
    fn pass(&mut self, bytes: &[u8])
        ensures { self.new.reader ≡ self.old.reader }
    {
        let Some(start) = self.start else {
            return;
        };
        self.progress.add(bytes);
        let Ok(passed) = start.elapsed(self.clock) else {
            return;
        };
        let seconds = passed.as_secs();
        if self.progress.is_due(seconds) {
            let words = self.progress.words(self.size, seconds);
            let _ = writeln!(self.errors, "{words}");
        }
    }
}

/// Each read is one of the reader inside.
impl<R: Read, C: Clock, E: Write> Read for ProgressReader<'_, R, C, E> {
    ghost remaining = { λ t. R.remaining t.reader };

    fn read(&mut self, buf: &mut [u8]) -> io::Result<usize> {
        let read = self.reader.read(buf);
        if let Ok(count) = &read {
            self.pass(&buf[..*count]);
        }
        read
    }
}
