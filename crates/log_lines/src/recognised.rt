//! What is recognised of an input.
ghost use Rattle.std.specs.Prelude.{◌≡◌, ◌||◌, false, true, None, Some};
ghost use Rattle.candump_line.specs.Content.{is_of_frames};
ghost use Rattle.log_lines.specs.declared.looks.Looks.{Looks as AnyLooks};
ghost use Rattle.log_lines.specs.Looks.{looks_of};

use crate::looks::Looks;
use candump_line::Line;
use std::io;
use std::io::Write;

/// What was recognised of an input by its lines so far: whether one tells of frames, and what it looks like else.
#[derive(Clone, Copy)]
pub(crate) struct Recognised {
    lines: u64,
    has_frames: bool,
    looks: Option<Looks>,
}

impl Recognised {
    /// Nothing was read.
    pub(crate) fn new() -> Recognised
        ensures frames { result.has_frames ≡ false }
        ensures looks { result.looks ≡ None }
    {
        Recognised {
            lines: 0,
            has_frames: false,
            looks: None,
        }
    }

    /// Takes a line, and what it says.
    pub(crate) fn take(&mut self, line: &[u8], said: &Line<'_>)
        ensures frames { self.new.has_frames ≡ (self.old.has_frames || is_of_frames said.now) }
        ensures kept { (looks : AnyLooks) → self.old.looks ≡ Some looks → self.new.looks ≡ Some looks }
        ensures first { self.old.has_frames ≡ false → is_of_frames said.now ≡ false → self.old.looks ≡ None
            → self.new.looks ≡ looks_of line.now }
    {
        self.lines = self.lines.saturating_add(1);
        if self.has_frames {
            return;
        }
        if said.is_of_frames() {
            self.has_frames = true;
            return;
        }
        if self.looks.is_none() {
            self.looks = Looks::of(line);
        }
    }

    /// Tells that no line is a frame, what the input looks like, and how it is converted. Tells whether that was so: an input
    /// without any line lacks nothing.
    pub(crate) fn tell<E: Write>(&self, errors: &mut E) -> io::Result<bool> {
        if self.has_frames || self.lines == 0 {
            return Ok(false);
        }
        let lines = self.lines;
        match self.looks {
            Some(looks) => writeln!(errors, "no frame in {lines} lines: {looks}")?,
            None => writeln!(
                errors,
                "no frame in {lines} lines: this looks like no log of candump (candump -L can0 > OUT.log)"
            )?,
        }
        Ok(true)
    }
}
