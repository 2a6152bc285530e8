use std::alloc::{AllocError, AllocFailed, Global};
use std::fmt;

/// Why rows can't be read on.
#[derive(Clone, Copy)]
pub(crate) enum CsvFault {
    /// The quote that opens in this line never ends.
    OpenQuote(u64),
    /// Behind the end of the quote that opens in this line stands more of its value.
    BehindQuote(u64),
    /// Memory was refused.
    Memory,
}

impl From<AllocError> for CsvFault {
    fn from(_: AllocError) -> CsvFault {
        CsvFault::Memory
    }
}

/// Why a shop's file was refused.
#[derive(Debug, Drop)]
pub enum SheetFault {
    /// Lines of it are wrong. Each is told by its number and with its end, `units, line 7: function: 300 is not 0 to 255`; of many
    /// the first ten.
    Refused(String),
    /// Memory was refused.
    Memory,
}

impl From<AllocError> for SheetFault {
    fn from(_: AllocError) -> SheetFault {
        SheetFault::Memory
    }
}

impl<T: Drop> From<AllocFailed<T>> for SheetFault {
    fn from(_: AllocFailed<T>) -> SheetFault {
        SheetFault::Memory
    }
}

/// What is wrong with a line.
#[derive(Clone, Copy)]
pub enum RowFault<'a> {
    /// The first line has a column of this name, which is none of these.
    NoColumn(&'a str, ColumnNames<'a>),
    /// The first line has a column of this name twice.
    Twice(&'a str),
    /// The first line lacks the last of these, or all others.
    TooFewColumns(ColumnNames<'a>),
    /// It has so many values, and the first line so many others.
    Values(usize, usize),
    /// Its value at this place, from 1, stands below no name.
    Unnamed(usize),
    /// The quote that opens in it never ends.
    OpenQuote,
    /// Behind the end of the quote that opens in it stands more.
    BehindQuote,
    /// The value in the column of this name is no text.
    NoText(&'a str),
    /// The value in the column of this name is this word, and not what it takes.
    NoValue(&'a str, &'a str, &'a str),
    /// It gives nothing of what all of these but the last are.
    NoKey(ColumnNames<'a>),
    /// Its text is empty.
    Empty,
}

impl fmt::Display for RowFault<'_> {
    fn fmt<W: fmt::Write>(&self, f: &mut fmt::Formatter<W>) -> fmt::Result {
        match self {
            RowFault::NoColumn(word, names) => {
                let all = names.all();
                write!(
                    f,
                    "{word} is none of the columns {all} (one of notes begins with #)"
                )
            }
            RowFault::Twice(word) => write!(f, "{word} stands there twice"),
            RowFault::TooFewColumns(names) => {
                let (text, keys) = (names.text(), names.keys());
                write!(f, "no column {text}, or none of {keys}")
            }
            RowFault::Values(count, first) => {
                write!(f, "{count} values, and the first line has {first}")
            }
            RowFault::Unnamed(place) => {
                write!(f, "value {place} stands below no name of a column")
            }
            RowFault::OpenQuote => write!(f, "a quote that does not end"),
            RowFault::BehindQuote => write!(f, "a quote with more behind its end"),
            RowFault::NoText(column) => {
                write!(
                    f,
                    "{column}: no UTF-8 (a spreadsheet saves it as CSV UTF-8)"
                )
            }
            RowFault::NoValue(column, word, wanted) => write!(
                f,
                "{column}: {word} is not {wanted}"
            ),
            RowFault::NoKey(names) => {
                let keys = names.keys();
                write!(f, "{keys}: all are empty")
            }
            RowFault::Empty => write!(f, "text: empty"),
        }
    }
}

/// The names that columns of a file may have: what a row is for, and last the text.
#[derive(Clone, Copy)]
pub struct ColumnNames<'a>(pub &'a [&'a str]);

impl<'a> ColumnNames<'a> {
    /// How many there are.
    pub(crate) fn len(self) -> usize {
        self.0.len()
    }

    /// The name at the place, from 0.
    pub(crate) fn get(self, place: usize) -> &'a str {
        match self.0.get(place) {
            Some(name) => *name,
            None => "",
        }
    }

    /// The place of a name; upper or lower case is the same.
    pub(crate) fn place_of(self, word: &str) -> Option<usize> {
        self.0
            .iter()
            .position(|name| name.eq_ignore_ascii_case(word))
    }

    fn all(self) -> NameList<'a> {
        NameList(self.0)
    }

    /// The last.
    fn text(self) -> &'a str {
        self.get(self.len().saturating_sub(1))
    }

    /// All but the last.
    fn keys(self) -> NameList<'a> {
        match self.0.split_last() {
            Some((_, keys)) => NameList(keys),
            None => NameList(self.0),
        }
    }
}

/// Names with commas between.
#[derive(Clone, Copy)]
struct NameList<'a>(&'a [&'a str]);

impl fmt::Display for NameList<'_> {
    fn fmt<W: fmt::Write>(&self, f: &mut fmt::Formatter<W>) -> fmt::Result {
        let mut mark = "";
        for name in self.0 {
            write!(f, "{mark}{name}")?;
            mark = ", ";
        }
        Ok(())
    }
}

/// How many wrong lines are told.
const TOLD: u64 = 10;

/// What is told of wrong lines of a file.
#[derive(Drop)]
pub struct WrongLines<'a> {
    alloc: Global,
    file: &'a str,
    words: String,
    count: u64,
}

impl<'a> WrongLines<'a> {
    /// Of none, of a file that is told of by this word.
    pub fn new(alloc: Global, file: &'a str) -> WrongLines<'a> {
        WrongLines {
            alloc,
            file,
            words: String::new(alloc),
            count: 0,
        }
    }

    /// Tells of a wrong line, where it is among the first ten.
    ///
    /// # Errors
    /// Memory was refused.
    pub fn tell(&mut self, line: u64, wrong: RowFault<'_>) -> Result<(), AllocError> {
        self.count = self.count.saturating_add(1);
        if self.count > TOLD {
            return Ok(());
        }
        let file = self.file;
        let line = format!(in self.alloc; "{file}, line {line}: {wrong}\n")?;
        self.words.push_str(line.as_str())
    }

    /// Whether a line was wrong.
    pub(crate) fn has_any(&self) -> bool {
        self.count > 0
    }

    /// The fault, where a line was wrong.
    ///
    /// # Errors
    /// - `Refused`: a line was.
    /// - `Memory`: memory was refused.
    pub fn ended(self) -> Result<(), SheetFault> {
        let WrongLines {
            alloc,
            file,
            mut words,
            count,
        } = self;
        if count == 0 {
            return Ok(());
        }
        if count > TOLD {
            let more = count - TOLD;
            let line = format!(in alloc; "{file}: and {more} more lines\n")?;
            words.push_str(line.as_str())?;
        }
        Err(SheetFault::Refused(words))
    }
}
