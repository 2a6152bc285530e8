use crate::fault::VehicleFault;
use crate::lines::line_of;
use std::alloc::{AllocError, AllocFailed, Global};
use std::fmt;

/// A table of a vehicle's text.
#[derive(Clone, Copy, PartialEq, Eq)]
pub(crate) enum KeyPlace {
    /// All of it.
    Whole,
    StationTable,
    Second,
    /// That of a unit, which is this one from 0 on.
    Unit(usize),
    /// That of a group which a unit sends, each of them counted from 0 on.
    Send {
        unit: usize,
        number: usize,
    },
    /// That of a group which a unit answers, counted likewise.
    Answer {
        unit: usize,
        number: usize,
    },
    /// That of a fault of a unit, counted likewise.
    Fail {
        unit: usize,
        number: usize,
    },
    /// That of a field of a group which a unit sends, counted likewise.
    Field {
        unit: usize,
        send: usize,
        number: usize,
    },
    /// That of such a group's checksum.
    Checksum {
        unit: usize,
        send: usize,
    },
}

/// What is wrong at a key.
#[derive(Clone, Copy)]
pub(crate) enum KeyFault {
    /// It is not there.
    Missing,
    /// No such key is known.
    NotKnown,
    /// A unit has it only as it takes part in a real bus.
    OfLive,
    /// The first station has this NAME.
    InUse,
    /// The unit at this place, from 0 on, has this NAME.
    OfUnit(usize),
    /// There is no unit.
    NoUnit,
    /// It is no key that is wrong: what should be the table itself is none.
    NoTable,
    /// It has no text.
    NoText,
    /// It has no whole number.
    NoNumber,
    /// It is neither true nor false.
    NoBool,
    /// It has no array of tables.
    NoTables,
    /// It has no array of texts.
    NoTexts,
    /// Its text is no NAME.
    NotName,
    /// Its text is no kind of a unit.
    NotKind,
    /// Its text tells no lamps.
    NotLamps,
    /// Its text is no code.
    NotCode,
    /// Its text spells no bytes.
    NotLongBytes,
    /// A text stands there, too.
    BesideText,
    /// Its text is empty, or has more than so many characters.
    NotSoLong(usize),
    /// Its text has a character that is not of ASCII, or a control character.
    NotPrintable,
    /// Its text has an asterisk.
    Asterisk,
    /// Its text has more fields than can be told of.
    TooManyFields,
    /// The unit answers this group already.
    Answered,
    /// Its text tells no way in which a field moves.
    NotMotion,
    /// Its text is no order of bits.
    NotOrder,
    /// It has no array of whole numbers.
    NoNumbers,
    /// There is no value.
    NoValue,
    /// A bit is beyond the bytes.
    Beyond,
    /// The field at this place, from 0 on, has a bit of it.
    OfField(usize),
    /// Its number is not within these two.
    Outside { found: i64, least: u32, most: u32 },
    /// No unit sends the group of this number as it likes.
    NotFree(u32),
    /// Its group goes in packets, in which nothing moves.
    InPackets,
    /// The group of this number does not go to all.
    NotToAll(u32),
    /// Its text tells no fault.
    NotDeviation,
    /// It is less than so many milliseconds.
    TooShort(u64),
}

impl KeyPlace {
    /// The name of the table; none where it is all of the text.
    fn table(self) -> &'static str {
        match self {
            KeyPlace::Whole => "",
            KeyPlace::StationTable => "station",
            KeyPlace::Second => "second",
            KeyPlace::Unit(_) => "unit",
            KeyPlace::Send { .. } => "unit.sends",
            KeyPlace::Answer { .. } => "unit.answers",
            KeyPlace::Fail { .. } => "unit.fails",
            KeyPlace::Field { .. } => "unit.sends.fields",
            KeyPlace::Checksum { .. } => "unit.sends.checksum",
        }
    }
}

impl KeyFault {
    /// What is told of it, behind the text where one is wrong; none where numbers are told.
    fn words(self) -> &'static str {
        match self {
            KeyFault::Missing => "missing",
            KeyFault::NotKnown => "no such key is known",
            KeyFault::OfLive => "only live takes this key",
            KeyFault::InUse => "the first station has this NAME",
            KeyFault::NoUnit => "at least one unit is wanted",
            KeyFault::NoTable => "no table",
            KeyFault::NoText => "no text",
            KeyFault::NoNumber => "no whole number",
            KeyFault::NoBool => "true or false",
            KeyFault::NoTables => "no array of tables",
            KeyFault::NoTexts => "no array of texts",
            KeyFault::NotName => "16 hexadecimal digits",
            KeyFault::NotKind => "plain, guarded or flicker",
            KeyFault::NotLamps => "4 hexadecimal digits",
            KeyFault::NotCode => "SPN/FMI or SPN/FMI/COUNT",
            KeyFault::NotLongBytes => "1 to 1785 bytes of two hexadecimal digits each",
            KeyFault::BesideText => "bytes or text, not both",
            KeyFault::NotPrintable => "a character is not of ASCII, or is a control character",
            KeyFault::Asterisk => "a VIN has no asterisk",
            KeyFault::TooManyFields => "more than 250 fields",
            KeyFault::Answered => "the unit answers this group already",
            KeyFault::NotMotion => "counter, ramp, toggle or values",
            KeyFault::NotOrder => "intel or motorola",
            KeyFault::NoNumbers => "no array of whole numbers",
            KeyFault::NoValue => "at least one value is wanted",
            KeyFault::Beyond => "it has a bit beyond the bytes",
            KeyFault::NotDeviation => {
                "drop, delay, twice, number, short, zeros, old, babble or steal"
            }
            KeyFault::InPackets => "nothing moves in more than 8 bytes",
            KeyFault::Outside { .. }
            | KeyFault::NotFree(_)
            | KeyFault::NotSoLong(_)
            | KeyFault::OfUnit(_)
            | KeyFault::OfField(_)
            | KeyFault::NotToAll(_)
            | KeyFault::TooShort(_) => "",
        }
    }

    /// Whether it is a text that is wrong.
    fn is_of_text(self) -> bool {
        matches!(
            self,
            KeyFault::NotName
                | KeyFault::NotKind
                | KeyFault::NotLamps
                | KeyFault::NotCode
                | KeyFault::NotLongBytes
                | KeyFault::NotMotion
                | KeyFault::NotDeviation
                | KeyFault::NotOrder
        )
    }
}

/// Where a text is no vehicle's, and why.
#[derive(Clone, Copy)]
pub(crate) struct KeyError<'a> {
    pub(crate) place: KeyPlace,
    /// The key in its table.
    pub(crate) key: &'a str,
    /// The text that it has, where that is what is wrong.
    pub(crate) found: &'a str,
    pub(crate) wrong: KeyFault,
}

/// Why a document gives no vehicle.
#[derive(Clone, Copy)]
pub(crate) enum ReadError<'a> {
    At(KeyError<'a>),
    /// Memory ran out.
    Memory,
}

impl<T: Drop> From<AllocFailed<T>> for ReadError<'_> {
    fn from(_: AllocFailed<T>) -> Self {
        ReadError::Memory
    }
}

impl From<AllocError> for ReadError<'_> {
    fn from(_: AllocError) -> Self {
        ReadError::Memory
    }
}

impl<'a> ReadError<'a> {
    /// At this key of a table something is wrong.
    pub(crate) fn at(place: KeyPlace, key: &'a str, wrong: KeyFault) -> ReadError<'a> {
        ReadError::of_text(place, key, "", wrong)
    }

    /// The text at this key of a table is wrong.
    pub(crate) fn of_text(
        place: KeyPlace,
        key: &'a str,
        found: &'a str,
        wrong: KeyFault,
    ) -> ReadError<'a> {
        ReadError::At(KeyError {
            place,
            key,
            found,
            wrong,
        })
    }

    /// What is told of it: the number of its line, where there is one, the key, and what is wrong.
    pub(crate) fn told(self, alloc: Global, text: &str) -> VehicleFault {
        let ReadError::At(key_error) = self else {
            return VehicleFault::Memory;
        };
        match key_error.words(alloc, text) {
            Ok(words) => VehicleFault::Refused(words),
            Err(_) => VehicleFault::Memory,
        }
    }
}

impl KeyError<'_> {
    fn words(self, alloc: Global, text: &str) -> Result<String, AllocError> {
        match line_of(text, self.place, self.key_of_line()) {
            Some(line) => format!(in alloc; "line {line}: {self}\n"),
            None => format!(in alloc; "{self}\n"),
        }
    }

    /// The key whose line is wrong; none where it is the table.
    fn key_of_line(&self) -> Option<&str> {
        match self.wrong {
            KeyFault::NoTable => None,
            _ => Some(self.key),
        }
    }

    /// The table's name, a dot and the key; only one of the two names where the other is not to be told.
    fn name(&self) -> (&str, &str, &str) {
        let table = self.place.table();
        match self.wrong {
            KeyFault::NoTable => (table, "", ""),
            _ if table.is_empty() => ("", "", self.key),
            _ => (table, ".", self.key),
        }
    }

    /// Writes what is wrong.
    fn write_wrong<W: fmt::Write>(&self, f: &mut fmt::Formatter<W>) -> fmt::Result {
        match self.wrong {
            KeyFault::Outside { found, least, most } => write!(
                f,
                "{found} is not {least} to {most}"
            ),
            KeyFault::NotFree(pgn) => write_not_free(f, pgn),
            KeyFault::NotSoLong(most) => write!(f, "1 to {most} characters are wanted"),
            KeyFault::OfUnit(place) => write!(f, "unit {place} has this NAME"),
            KeyFault::OfField(place) => write!(f, "field {place} has a bit of it"),
            KeyFault::NotToAll(pgn) => write!(f, "{pgn} does not go to all"),
            KeyFault::TooShort(least) => write_too_short(f, least),
            wrong => self.write_words(f, wrong),
        }
    }

    fn write_words<W: fmt::Write>(
        &self,
        f: &mut fmt::Formatter<W>,
        wrong: KeyFault,
    ) -> fmt::Result {
        if wrong.is_of_text() {
            write!(f, "'{}' is not ", self.found)?;
        }
        f.write_str(wrong.words())
    }
}

/// Writes that no unit sends the group of this number as it likes.
fn write_not_free<W: fmt::Write>(f: &mut fmt::Formatter<W>, pgn: u32) -> fmt::Result {
    write!(
        f,
        "{pgn} does not go to all, or is of the protocol or of diagnostics"
    )
}

/// Writes that packets would take more than half of a period.
fn write_too_short<W: fmt::Write>(f: &mut fmt::Formatter<W>, least: u64) -> fmt::Result {
    write!(
        f,
        "at least {least} are wanted, twice what the unit's packets take"
    )
}

impl fmt::Display for KeyError<'_> {
    fn fmt<W: fmt::Write>(&self, f: &mut fmt::Formatter<W>) -> fmt::Result {
        let (table, dot, key) = self.name();
        write!(f, "{table}{dot}{key}: ")?;
        self.write_wrong(f)
    }
}
