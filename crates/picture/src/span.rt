ghost use Rattle.std.specs.Prelude.{◌≡◌};
ghost use Rattle.picture.specs.Spans.{severity_of, IsJoined};

use crate::brief::Brief;
use crate::severity::Severity;

/// What a unit shows for a while.
#[derive(Clone, Copy)]
pub enum Shows {
    /// It holds this address.
    Address(u8),
    /// It tells this, so many times.
    Message {
        brief: Brief,
        severity: Severity,
        times: u64,
    },
    /// So many frames of this bus were missed.
    Missed {
        bus: u16,
        count: u64,
    },
    /// Different things one after the other, of which the worst is this bad.
    Changing(Severity),
}

impl Shows {
    /// How bad it is what is shown.
    pub fn severity(&self) -> Severity
        ensures { result ≡ severity_of self.now }
    {
        match self {
            Shows::Address(_) | Shows::Missed { .. } => Severity::Fine,
            Shows::Message { severity, .. } => *severity,
            Shows::Changing(severity) => *severity,
        }
    }
}

/// What was shown from one moment to another: microseconds, or lines of a log that has no times.
#[derive(Clone, Copy)]
pub struct Span {
    pub from: u64,
    pub to: u64,
    /// How many were told, of which this is made: 1, or more where neighbours were joined.
    pub told: u64,
    pub shows: Shows,
}

impl Span {
    /// A span as it is told.
    pub fn new(from: u64, to: u64, shows: Shows) -> Span
        ensures { result ≡ record { from = from; to = to; told = 1; shows = shows } }
    {
        Span {
            from,
            to,
            told: 1,
            shows,
        }
    }

    /// How long it is.
    pub fn length(&self) -> u64 {
        self.to.saturating_sub(self.from)
    }

    /// It and the one behind it as one.
    pub(crate) fn joined(&self, behind: &Span) -> Span
        ensures { IsJoined self.now behind.now result }
    {
        Span {
            from: self.from,
            to: behind.to,
            told: self.told.saturating_add(behind.told),
            shows: Shows::Changing(self.shows.severity().worse(behind.shows.severity())),
        }
    }
}
