ghost use Rattle.std.specs.Prelude.{◌≤◌, IfOk, IfSome};

use crate::csv_rows::{CsvRow, CsvRows};
use crate::sheet_fault::{ColumnNames, CsvFault, RowFault, WrongLines};
use std::alloc::{AllocError, Global};

/// What a column of the first line is.
#[derive(Clone, Copy, PartialEq, Eq)]
enum Column {
    /// The one of the names at this place.
    Named(usize),
    /// One of notes: its name begins with `#`.
    Notes,
    /// One without a name: a row has nothing there.
    Unnamed,
    /// One of any other name, which is wrong.
    Other,
}

/// A shop's file: rows of values, under columns that its first line names in any order.
///
/// The first comma, semicolon or tab of the first line separates values. A column whose name begins with `#` is one of notes, and
/// is passed over.
#[derive(Drop)]
pub struct Sheet<'a> {
    names: ColumnNames<'a>,
    columns: Vec<Column>,
    rows: CsvRows<'a>,
    row: CsvRow,
}

impl<'a> Sheet<'a> {
    /// The file of this text, behind its first line. None where that is wrong, which is told.
    ///
    /// The last of the names is that of the texts, and of the others one at least has to be there.
    ///
    /// # Errors
    /// Memory was refused.
    pub fn open(
        alloc: Global,
        names: ColumnNames<'a>,
        text: &'a [u8],
        told: &mut WrongLines<'_>,
    ) -> Result<Option<Sheet<'a>>, AllocError> {
        let mut rows = CsvRows::of(text);
        let mut row = CsvRow::new(alloc);
        if !read_row(&mut rows, &mut row, told)? {
            if !told.has_any() {
                told.tell(1, RowFault::TooFewColumns(names))?;
            }
            return Ok(None);
        }
        let columns = columns_of(alloc, &row, names)?;
        let sheet = Sheet {
            names,
            columns,
            rows,
            row,
        };
        if let Some(wrong) = sheet.misnamed() {
            told.tell(sheet.line(), wrong)?;
            return Ok(None);
        }
        Ok(Some(sheet))
    }

    /// What is wrong with the first line, where anything is.
    fn misnamed(&self) -> Option<RowFault<'_>> {
        for (place, column) in self.columns.iter().enumerate() {
            if *column == Column::Other {
                return Some(self.other_at(place));
            }
            if let Column::Named(name) = *column
                && self.columns[..place].contains(column)
            {
                return Some(RowFault::Twice(self.names.get(name)));
            }
        }
        if self.has_columns() {
            None
        } else {
            Some(RowFault::TooFewColumns(self.names))
        }
    }

    /// That the word at this place of the first line is no name of a column.
    fn other_at(&self, place: usize) -> RowFault<'_> {
        match word_at(&self.row, place, "column") {
            Ok(word) => RowFault::NoColumn(word.trim_ascii(), self.names),
            Err(wrong) => wrong,
        }
    }

    /// Whether the text has a column, and one of the others too.
    fn has_columns(&self) -> bool {
        let text = self.names.len().saturating_sub(1);
        let mut has_key = false;
        for name in 0..text {
            has_key = has_key || self.has(name);
        }
        has_key && self.has(text)
    }

    /// Whether the name at this place has a column.
    fn has(&self, name: usize) -> bool {
        self.columns.contains(&Column::Named(name))
    }

    /// Reads the next row that has as many values as the first, and none without a name. Tells whether there was one, and of each
    /// other what is wrong.
    ///
    /// # Errors
    /// Memory was refused.
    pub fn read(&mut self, told: &mut WrongLines<'_>) -> Result<bool, AllocError> {
        for _ in 0..u64::MAX {
            if !read_row(&mut self.rows, &mut self.row, told)? {
                return Ok(false);
            }
            match self.misplaced() {
                None => return Ok(true),
                Some(wrong) => told.tell(self.row.line(), wrong)?,
            }
        }
        Ok(false)
    }

    /// What is wrong with the places of a row's values, where anything is.
    fn misplaced(&self) -> Option<RowFault<'a>> {
        if self.row.len() != self.columns.len() {
            return Some(RowFault::Values(self.row.len(), self.columns.len()));
        }
        for (place, column) in self.columns.iter().enumerate() {
            if *column == Column::Unnamed && !is_blank(self.row.get(place)) {
                return Some(RowFault::Unnamed(place.saturating_add(1)));
            }
        }
        None
    }

    /// The line on which the row that was read begins, from 1.
    pub fn line(&self) -> u64 {
        self.row.line()
    }

    /// The names that its columns may have.
    pub fn names(&self) -> ColumnNames<'a> {
        self.names
    }

    /// What the row has in the column of the name at this place; nothing where there is no such column.
    ///
    /// # Errors
    /// It is no UTF-8.
    pub fn text(&self, name: usize) -> Result<&str, RowFault<'_>> {
        let column = Column::Named(name);
        match self.columns.iter().position(|c| *c == column) {
            Some(place) => word_at(&self.row, place, self.names.get(name)),
            None => Ok(""),
        }
    }

    /// The same without blanks around it.
    ///
    /// # Errors
    /// It is no UTF-8.
    pub fn word(&self, name: usize) -> Result<&str, RowFault<'_>> {
        match self.text(name) {
            Ok(text) => Ok(text.trim_ascii()),
            Err(wrong) => Err(wrong),
        }
    }

    /// The number that the row has there; none where it has nothing. At most `last`, else it is not what is wanted.
    ///
    /// # Errors
    /// It is no such number.
    pub fn number(
        &self,
        name: usize,
        last: u32,
        wanted: &'a str,
    ) -> Result<Option<u32>, RowFault<'_>>
        ensures { IfOk result (λ given. IfSome given (λ number. number ≤ last)) }
    {
        let word = self.word(name)?;
        if word.is_empty() {
            return Ok(None);
        }
        match word.parse::<u32>() {
            Ok(number) if number <= last => Ok(Some(number)),
            _ => Err(self.refused(name, word, wanted)),
        }
    }

    /// That this word in the column of the name at this place is not what is wanted.
    pub fn refused<'b>(&self, name: usize, word: &'b str, wanted: &'b str) -> RowFault<'b>
    where
        'a: 'b,
    {
        RowFault::NoValue(self.names.get(name), word, wanted)
    }
}

/// Reads the next row. Tells whether there was one, and of a quote that takes more than its value.
fn read_row(
    rows: &mut CsvRows<'_>,
    row: &mut CsvRow,
    told: &mut WrongLines<'_>,
) -> Result<bool, AllocError> {
    match rows.read(row) {
        Ok(is_row) => Ok(is_row),
        Err(CsvFault::OpenQuote(line)) => {
            told.tell(line, RowFault::OpenQuote)?;
            Ok(false)
        }
        Err(CsvFault::BehindQuote(line)) => {
            told.tell(line, RowFault::BehindQuote)?;
            Ok(false)
        }
        Err(CsvFault::Memory) => Err(AllocError),
    }
}

/// The columns of a first line.
fn columns_of(
    alloc: Global,
    first: &CsvRow,
    names: ColumnNames<'_>,
) -> Result<Vec<Column>, AllocError> {
    let mut columns = Vec::new(alloc);
    for place in 0..first.len() {
        columns.push(column_at(first, names, place))?;
    }
    Ok(columns)
}

/// What the column at this place of a first line is.
fn column_at(first: &CsvRow, names: ColumnNames<'_>, place: usize) -> Column {
    let word = match word_at(first, place, "column") {
        Ok(word) => word.trim_ascii(),
        Err(_) => return Column::Other,
    };
    if word.is_empty() {
        return Column::Unnamed;
    }
    if word.starts_with('#') {
        return Column::Notes;
    }
    match names.place_of(word) {
        Some(name) => Column::Named(name),
        None => Column::Other,
    }
}

/// Whether a value is empty but for blanks.
fn is_blank(value: Option<&[u8]>) -> bool {
    match value {
        Some(bytes) => bytes.trim_ascii().is_empty(),
        None => true,
    }
}

/// What a row has at a place, below this name.
fn word_at<'a>(row: &'a CsvRow, place: usize, name: &'a str) -> Result<&'a str, RowFault<'a>> {
    match row.get(place) {
        Some(bytes) => match std::str::from_utf8(bytes) {
            Ok(word) => Ok(word),
            Err(_) => Err(RowFault::NoText(name)),
        },
        None => Ok(""),
    }
}
