use crate::listed::write_mark;
use candump_line::Foreign;
use std::io;
use std::io::Write;

/// How many frames were none of SAE J1939, by their kind.
#[derive(Clone, Copy)]
pub(crate) struct ForeignCounts {
    short: u64,
    remote: u64,
    fd: u64,
    error: u64,
}

impl ForeignCounts {
    /// None was read.
    pub(crate) fn new() -> ForeignCounts {
        ForeignCounts {
            short: 0,
            remote: 0,
            fd: 0,
            error: 0,
        }
    }

    /// Counts a frame.
    pub(crate) fn add(&mut self, what: Foreign) {
        let count = match what {
            Foreign::StandardId => &mut self.short,
            Foreign::Remote => &mut self.remote,
            Foreign::Fd => &mut self.fd,
            Foreign::Error => &mut self.error,
        };
        *count = count.saturating_add(1);
    }

    pub(crate) fn is_empty(&self) -> bool {
        self.total() == 0
    }

    fn total(&self) -> u64 {
        self.short
            .saturating_add(self.remote)
            .saturating_add(self.fd)
            .saturating_add(self.error)
    }

    /// Tells how many there are of each kind, and that there is no other frame.
    pub(crate) fn tell<E: Write>(&self, errors: &mut E) -> io::Result<()> {
        let kinds = self.kinds();
        let count = kinds.iter().filter(|kind| kind.count > 0).count();
        let mut place = 0usize;
        for kind in &kinds {
            if kind.count > 0 {
                write_mark(errors, place, count)?;
                kind.write(errors)?;
                place = place.saturating_add(1);
            }
        }
        let were = if self.total() == 1 { "was" } else { "were" };
        let other = if self.short == self.total() {
            "none"
        } else {
            "no data frame"
        };
        writeln!(errors, " {were} read, {other} with 29 bits")
    }

    fn kinds(&self) -> [KindCount; 4] {
        [
            KindCount {
                count: self.short,
                one: "frame with an 11-bit identifier",
                more: "frames with 11-bit identifiers",
            },
            KindCount {
                count: self.remote,
                one: "remote frame",
                more: "remote frames",
            },
            KindCount {
                count: self.fd,
                one: "CAN FD frame",
                more: "CAN FD frames",
            },
            KindCount {
                count: self.error,
                one: "error frame",
                more: "error frames",
            },
        ]
    }
}

/// How many frames of a kind there are, and what one and more of them are called.
#[derive(Clone, Copy)]
struct KindCount {
    count: u64,
    one: &'static str,
    more: &'static str,
}

impl KindCount {
    fn write<E: Write>(&self, errors: &mut E) -> io::Result<()> {
        let count = self.count;
        let name = if count == 1 { self.one } else { self.more };
        write!(errors, "{count} {name}")
    }
}
