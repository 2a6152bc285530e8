ghost use Rattle.std.specs.Prelude.{◌≡◌, ◌↔◌, ℕ, ◌<◌, ◌≤◌, ◌++◌, IsTrue, IsNone, IsSome, IfErr, IfSome, IsOkAnd, OnErr, OnOk, length, string_bytes, take};
ghost use Rattle.std.specs.Str.{IsCharBoundary};
ghost use Rattle.std.specs.Io.KnownBytes.{Appends, Keeps};
ghost use Rattle.std.specs.Fmt.{decimal};
ghost use Rattle.safe_text.specs.Escape.{ellipsis, escaped};

use crate::escape::write_text;
use crate::fault::PageFault;
use std::alloc::AllocError;
use std::io;
use std::io::Write;

/// The most bytes that stand for a byte of text from outside.
const MOST_FOR_A_BYTE: u64 = 6;

/// A page that is written. Of what comes from outside only `text`, `short_text` and `made_text` take anything, and that goes through
/// the escape.
///
/// The first fault stops a page: it is kept, what is written later is left out, and `finish` tells it.
#[derive(Drop)]
pub struct Page<W> {
    writer: W,
    /// At least as many bytes as were written.
    size: u64,
    fault: Option<PageFault>,
}

impl<W: Write> Page<W> {
    /// A page of which nothing is written.
    pub fn new(writer: W) -> Page<W>
        ensures { IsNone result.fault }
    {
        Page {
            writer,
            size: 0,
            fault: None,
        }
    }

    /// Whether a fault stopped it.
    pub fn has_failed(&self) -> bool
        ensures { IsTrue result ↔ IsSome self.now.fault }
    {
        self.fault.is_some()
    }

    /// Whether it takes more: no fault stopped it, and it has fewer bytes than that.
    pub fn has_room(&self, bytes: u64) -> bool
        ensures { IsTrue result ↔ ((self.now.size < bytes) × IsNone self.now.fault) }
    {
        self.size < bytes && !self.has_failed()
    }

    /// Writes markup that stands in the program.
    pub fn markup(&mut self, text: &'static str)
        ensures written { IsNone self.new.fault
            → IsNone self.old.fault × Appends (W.contents self.old.writer) (W.contents self.new.writer) text.now }
        ensures stopped { IsSome self.old.fault → self.new ≡ self.old }
    {
        if self.has_failed() {
            return;
        }
        self.count(text.len() as u64);
        let written = self.writer.write_all(text.as_bytes());
        self.keep(written);
    }

    /// Writes a number in decimal digits.
    pub fn number(&mut self, number: u64)
        ensures written { IsNone self.new.fault
            → IsNone self.old.fault × Appends (W.contents self.old.writer) (W.contents self.new.writer) (decimal number) }
        ensures stopped { IsSome self.old.fault → self.new ≡ self.old }
    {
        if self.has_failed() {
            return;
        }
        self.count(20);
        let written = write!(self.writer, "{number}");
        self.keep(written);
    }

    /// Writes text from outside, escaped.
    pub fn text(&mut self, text: &str)
        ensures written { IsNone self.new.fault
            → IsNone self.old.fault × Appends (W.contents self.old.writer) (W.contents self.new.writer) (escaped text.now) }
        ensures stopped { IsSome self.old.fault → self.new ≡ self.old }
    {
        if self.has_failed() {
            return;
        }
        self.count((text.len() as u64).saturating_mul(MOST_FOR_A_BYTE));
        let written = write_text(&mut self.writer, text);
        self.keep(written);
    }

    /// Writes text that was made in memory, escaped. Where memory was refused for it, that stops the page.
    pub fn made_text(&mut self, text: Result<String, AllocError>)
        ensures written { IsNone self.new.fault → IsNone self.old.fault × IsOkAnd text
            (λ made. Appends (W.contents self.old.writer) (W.contents self.new.writer) (escaped (string_bytes made))) }
        ensures memory { OnErr text (IsNone self.old.fault → self.new.fault ≡ Some PageFault.Memory) }
        ensures stopped { IsSome self.old.fault → self.new ≡ self.old }
    {
        match text {
            Ok(made) => self.text(made.as_str()),
            Err(_) => self.refuse_memory(),
        }
    }

    /// Writes text from outside, escaped: whole where it has at most so many bytes, else its front of at most so many, and an
    /// ellipsis.
    pub fn short_text(&mut self, text: &str, most: usize)
        ensures whole { length text.now ≤ most → IsNone self.new.fault
            → IsNone self.old.fault × Appends (W.contents self.old.writer) (W.contents self.new.writer) (escaped text.now) }
        ensures cut { most < length text.now → IsNone self.new.fault
            → IsNone self.old.fault × ((n : ℕ) × (n ≤ most)
            × Appends (W.contents self.old.writer) (W.contents self.new.writer) (escaped (take n text.now) ++ ellipsis)) }
        ensures stopped { IsSome self.old.fault → self.new ≡ self.old }
    {
        if text.len() <= most {
            self.text(text);
            return;
        }
        self.front_of(text, text.floor_char_boundary(most));
    }

    /// Writes the front of a text from outside, escaped, and an ellipsis.
    fn front_of(&mut self, text: &str, end: usize)
        requires { IsCharBoundary text.now end }
        ensures written { IsNone self.new.fault → IsNone self.old.fault
            × Appends (W.contents self.old.writer) (W.contents self.new.writer) (escaped (take end text.now) ++ ellipsis) }
        ensures stopped { IsSome self.old.fault → self.new ≡ self.old }
    {
        self.text(&text[..end]);
        self.markup("…");
    }

    /// Stops the page, since memory was refused for what would come next.
    pub fn refuse_memory(&mut self)
        ensures memory { IsNone self.old.fault → self.new.fault ≡ Some PageFault.Memory }
        ensures stopped { IsSome self.old.fault → self.new ≡ self.old }
    {
        if self.fault.is_none() {
            self.fault = Some(PageFault::Memory);
        }
    }

    /// Writes out what the writer holds back, unless a fault stopped the page.
    ///
    /// # Errors
    /// - the first fault that stopped it;
    /// - `Write`: it could not be written out.
    pub fn finish(&mut self) -> Result<(), PageFault>
        ensures whole { OnOk result
            (IsNone self.old.fault × Keeps (W.contents self.old.writer) (W.contents self.new.writer)) }
        ensures stopped { IfSome self.old.fault (λ fault. (result ≡ Err fault) × (self.new ≡ self.old)) }
        ensures err { IfErr result (λ fault. self.new.fault ≡ Some fault) }
    {
        if !self.has_failed() {
            let flushed = self.writer.flush();
            self.keep(flushed);
        }
        match self.fault {
            Some(fault) => Err(fault),
            None => Ok(()),
        }
    }

    /// Keeps that a write failed.
    fn keep(&mut self, written: io::Result<()>)
        ensures ok { OnOk written (self.new ≡ self.old) }
        ensures err { OnErr written (self.new.fault ≡ Some PageFault.Write) }
    {
        if written.is_err() {
            self.fault = Some(PageFault::Write);
        }
    }

    fn count(&mut self, bytes: u64)
        ensures writer { self.new.writer ≡ self.old.writer }
        ensures fault { self.new.fault ≡ self.old.fault }
    {
        self.size = self.size.saturating_add(bytes);
    }
}
