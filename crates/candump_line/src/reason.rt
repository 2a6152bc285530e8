use std::error::Error;
use std::fmt;

/// Why a line that begins as one of a log is none. `Display` writes it.
#[derive(Clone, Copy, Debug, PartialEq, Eq)]
pub enum Reason {
    /// It has more than `LINE_LIMIT` bytes.
    TooLong,
    /// It is no UTF-8.
    NotText,
    /// Between its parentheses stands no time.
    NoTime,
    /// No word for the bus stands behind the time.
    NoBus,
    /// No frame stands behind the bus.
    NoFrame,
    /// The identifier is not followed by `#`.
    NoHash,
    /// The identifier has neither three nor eight digits, but so many.
    IdDigits(usize),
    /// The identifier has more than 29 bits.
    IdTooLarge,
    /// There are more than eight bytes.
    TooManyBytes,
    /// A plain line has another number of bytes than its brackets say.
    ByteCount { length: u8, found: u8 },
    /// The last byte has one digit.
    OddDigits,
    /// A character stands where a hexadecimal digit is wanted.
    NoDigit(char),
    /// A character that is not shown stands there: its number.
    ControlCharacter(u32),
    /// More than `R` or `T` stands behind the data.
    WordsBehind,
}

impl Error for Reason {}

/// What its kind says, with the numbers and characters in it.
impl fmt::Display for Reason {
    fn fmt<W: fmt::Write>(&self, f: &mut fmt::Formatter<W>) -> fmt::Result {
        let kind = self.kind();
        match self {
            Reason::IdDigits(found) => write!(f, "{kind}, {found} found"),
            Reason::ByteCount { length, found } => write!(f, "{found} bytes, and {length} told of"),
            Reason::NoDigit(character) => write!(f, "{kind}: {character}"),
            Reason::ControlCharacter(number) => write!(f, "{kind}: U+{number:04X}"),
            _ => write!(f, "{kind}"),
        }
    }
}
