ghost use Rattle.std.specs.Prelude.{◌≡◌, ◌+◌, ◌*◌, ◌-◌, ◌^◌, ◌≤◌, min, length, nat_lt, not, true, false};

use crate::progress_words::ProgressWords;

/// After how many seconds it is first told how far a reader is.
const FIRST: u64 = 2;

/// How far a reader is, and when that is told next.
#[derive(Clone, Copy)]
pub(crate) struct Progress {
    bytes: u64,
    lines: u64,
    due: u64,
}

impl Progress {
    /// Nothing is read.
    pub(crate) fn new() -> Progress {
        Progress {
            bytes: 0,
            lines: 0,
            due: FIRST,
        }
    }

    /// These bytes were read behind the others.
    pub(crate) fn add(&mut self, bytes: &[u8])
        ensures bytes { self.new.bytes ≡ min (self.old.bytes + length bytes.now) (2 ^ 64 - 1) }
        ensures due { self.new.due ≡ self.old.due }
    {
        self.bytes = self.bytes.saturating_add(bytes.len() as u64);
        self.lines = self.lines.saturating_add(line_ends(bytes));
    }

    /// Whether it is told after so many seconds. If so, it is told next when twice as many have passed.
    pub(crate) fn is_due(&mut self, seconds: u64) -> bool
        ensures told { result ≡ not (nat_lt seconds self.old.due) }
        ensures next { result ≡ true → self.new.due ≡ min (seconds * 2) (2 ^ 64 - 1) }
        ensures same { result ≡ false → self.new.due ≡ self.old.due }
        ensures read { self.new.bytes ≡ self.old.bytes }
    {
        if seconds < self.due {
            return false;
        }
        self.due = seconds.saturating_mul(2);
        true
    }

    /// How far it is after so many seconds: by bytes where the size of what is read is known, else by lines.
    pub(crate) fn words(&self, size: Option<u64>, seconds: u64) -> ProgressWords {
        match size {
            Some(size) => ProgressWords::Bytes {
                read: self.bytes,
                size,
            },
            None => ProgressWords::Lines {
                read: self.lines,
                seconds,
            },
        }
    }
}

/// How many lines end in these bytes.
fn line_ends(bytes: &[u8]) -> u64 {
    let mut ends = 0u64;
    for byte in bytes {
        if *byte == b'\n' {
            ends = ends.saturating_add(1);
        }
    }
    ends
}
