//! The kinds of reasons why a line is bad, by which such lines are counted.
ghost use Rattle.std.specs.Prelude.{◌<◌};

use crate::reason::Reason;
use std::fmt;

/// What a reason says, but for the numbers and characters in it. `Display` writes it.
#[derive(Clone, Copy, PartialEq, Eq)]
pub enum ReasonKind {
    TooLong,
    NotText,
    NoTime,
    NoBus,
    NoFrame,
    NoHash,
    IdDigits,
    IdTooLarge,
    TooManyBytes,
    ByteCount,
    OddDigits,
    NoDigit,
    WordsBehind,
}

/// All kinds, in the order in which they are told.
pub const REASON_KINDS: [ReasonKind; 13] = [
    ReasonKind::TooLong,
    ReasonKind::NotText,
    ReasonKind::NoTime,
    ReasonKind::NoBus,
    ReasonKind::NoFrame,
    ReasonKind::NoHash,
    ReasonKind::IdDigits,
    ReasonKind::IdTooLarge,
    ReasonKind::TooManyBytes,
    ReasonKind::ByteCount,
    ReasonKind::OddDigits,
    ReasonKind::NoDigit,
    ReasonKind::WordsBehind,
];

impl Reason {
    /// Its kind.
    pub fn kind(self) -> ReasonKind {
        match self {
            Reason::TooLong => ReasonKind::TooLong,
            Reason::NotText => ReasonKind::NotText,
            Reason::NoTime => ReasonKind::NoTime,
            Reason::NoBus => ReasonKind::NoBus,
            Reason::NoFrame => ReasonKind::NoFrame,
            Reason::NoHash => ReasonKind::NoHash,
            Reason::IdDigits(_) => ReasonKind::IdDigits,
            Reason::IdTooLarge => ReasonKind::IdTooLarge,
            Reason::TooManyBytes => ReasonKind::TooManyBytes,
            Reason::ByteCount { .. } => ReasonKind::ByteCount,
            Reason::OddDigits => ReasonKind::OddDigits,
            Reason::NoDigit(_) | Reason::ControlCharacter(_) => ReasonKind::NoDigit,
            Reason::WordsBehind => ReasonKind::WordsBehind,
        }
    }
}

impl ReasonKind {
    /// Its place among all of them.
    pub fn place(self) -> usize
        ensures { result < 13 }
    {
        match self {
            ReasonKind::TooLong => 0,
            ReasonKind::NotText => 1,
            ReasonKind::NoTime => 2,
            ReasonKind::NoBus => 3,
            ReasonKind::NoFrame => 4,
            ReasonKind::NoHash => 5,
            ReasonKind::IdDigits => 6,
            ReasonKind::IdTooLarge => 7,
            ReasonKind::TooManyBytes => 8,
            ReasonKind::ByteCount => 9,
            ReasonKind::OddDigits => 10,
            ReasonKind::NoDigit => 11,
            ReasonKind::WordsBehind => 12,
        }
    }
}

impl fmt::Display for ReasonKind {
    fn fmt<W: fmt::Write>(&self, f: &mut fmt::Formatter<W>) -> fmt::Result {
        let text = match self {
            ReasonKind::TooLong => "longer than 4096 bytes",
            ReasonKind::NotText => "no text",
            ReasonKind::NoTime => "no time (SECONDS.MICROSECONDS)",
            ReasonKind::NoBus => "no bus behind the time",
            ReasonKind::NoFrame => "no frame behind the bus",
            ReasonKind::NoHash => "no # behind the identifier",
            ReasonKind::IdDigits => "8 digits of identifier wanted",
            ReasonKind::IdTooLarge => "identifier above 1FFFFFFF",
            ReasonKind::TooManyBytes => "more than 8 bytes",
            ReasonKind::ByteCount => "other bytes than told of",
            ReasonKind::OddDigits => "odd number of digits",
            ReasonKind::NoDigit => "no hexadecimal digit",
            ReasonKind::WordsBehind => "words behind the data",
        };
        write!(f, "{text}")
    }
}
