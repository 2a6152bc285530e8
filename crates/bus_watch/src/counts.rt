ghost use Rattle.std.specs.Prelude.{◌≡◌};
ghost use Rattle.bus_watch.specs.Counted.{with_foreign};

use candump_line::{Foreign, Line};

/// How many lines there were of each sort.
#[derive(Clone, Copy, Default)]
pub struct WatchCounts {
    /// All lines.
    pub lines: u64,
    /// Data frames with a 29-bit identifier, on the watched bus.
    pub frames: u64,
    /// Lines that are none of a log, though they begin as such.
    pub bad: u64,
    /// Frames with an 11-bit identifier.
    pub short: u64,
    /// Remote frames.
    pub remote: u64,
    /// CAN FD frames.
    pub fd: u64,
    /// Error frames.
    pub error: u64,
    /// Frames of another bus than the watched one.
    pub other_bus: u64,
    /// Tellings of dropped frames.
    pub drops: u64,
    /// Empty lines, comments and other text.
    pub notes: u64,
    /// Packets of the transport protocol that came too late for their message, and what followed them in it.
    pub withheld: u64,
    /// Diagnostic messages from an address that nobody has claimed in what was read.
    pub not_attributed: u64,
    /// Diagnostic messages that were read in part.
    pub partly: u64,
}

impl WatchCounts {
    /// Counts a frame that is none of SAE J1939.
    pub(crate) fn add_foreign(&mut self, what: Foreign)
        ensures { self.new ≡ with_foreign what self.old }
    {
        match what {
            Foreign::StandardId => self.short = self.short.saturating_add(1),
            Foreign::Remote => self.remote = self.remote.saturating_add(1),
            Foreign::Fd => self.fd = self.fd.saturating_add(1),
            Foreign::Error => self.error = self.error.saturating_add(1),
        }
    }

    /// Counts a line where each bus is watched: one that none of them hears is of another bus, or of none.
    pub(crate) fn add_line(&mut self, line: &Line<'_>, is_unheard: bool) {
        self.lines = self.lines.saturating_add(1);
        let count = match line {
            Line::Frame { bus: None, .. }
            | Line::Overflow { bus: None, .. }
            | Line::Foreign { bus: None, .. }
            | Line::Note => &mut self.notes,
            Line::Bad(_) => &mut self.bad,
            Line::Dropped { .. } => &mut self.drops,
            _ if is_unheard => &mut self.other_bus,
            Line::Frame { .. } => &mut self.frames,
            Line::Overflow { .. } => &mut self.error,
            Line::Foreign { what, .. } => return self.add_foreign(*what),
        };
        *count = count.saturating_add(1);
    }

    /// These with those of a watch: all, or where lines are counted for each bus together, those of its messages alone.
    pub(crate) fn with_watch(self, watch: WatchCounts, is_one_of_many: bool) -> WatchCounts {
        if !is_one_of_many {
            return watch;
        }
        WatchCounts {
            withheld: self.withheld.saturating_add(watch.withheld),
            not_attributed: self.not_attributed.saturating_add(watch.not_attributed),
            partly: self.partly.saturating_add(watch.partly),
            ..self
        }
    }
}
