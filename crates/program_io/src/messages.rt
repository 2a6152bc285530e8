ghost use Rattle.std.specs.Prelude.{◌≡◌, Ok, IsOk, length};
ghost use Rattle.std.specs.Io.{WritesAtMost};

use std::io;
use std::io::Write;

/// Messages that go beside what is written, as to standard error. One that cannot be written is lost, and whoever tells it goes on.
#[derive(Drop)]
pub struct Messages<W> {
    writer: W,
}

impl<W: Write> Messages<W> {
    /// Messages to this writer.
    pub fn new(writer: W) -> Messages<W> {
        Messages { writer }
    }
}

/// Every call is answered as one of a writer that takes all.
impl<W: Write> Write for Messages<W> {
    fn write(&mut self, buf: &[u8]) -> io::Result<usize>
        ensures bound { WritesAtMost result buf.now }
        ensures taken { result ≡ Ok (length buf.now) }
    {
        let _ = self.writer.write_all(buf);
        Ok(buf.len())
    }

    fn flush(&mut self) -> io::Result<()>
        ensures { IsOk result }
    {
        let _ = self.writer.flush();
        Ok(())
    }
}
