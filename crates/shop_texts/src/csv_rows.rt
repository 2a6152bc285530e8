use crate::sheet_fault::CsvFault;
use std::alloc::{AllocError, Global};

/// A row: the line on which it begins, from 1, and its values.
#[derive(Drop)]
pub(crate) struct CsvRow {
    alloc: Global,
    line: u64,
    values: Vec<Vec<u8>>,
}

impl CsvRow {
    /// One without values.
    pub(crate) fn new(alloc: Global) -> CsvRow {
        CsvRow {
            alloc,
            line: 0,
            values: Vec::new(alloc),
        }
    }

    /// The line on which it begins, from 1.
    pub(crate) fn line(&self) -> u64 {
        self.line
    }

    /// How many values it has.
    pub(crate) fn len(&self) -> usize {
        self.values.len()
    }

    /// The value at the place, from 0.
    pub(crate) fn get(&self, place: usize) -> Option<&[u8]> {
        match self.values.get(place) {
            Some(value) => Some(value.as_slice()),
            None => None,
        }
    }

    /// Begins a row on a line, with an empty value.
    fn begin(&mut self, line: u64) -> Result<(), AllocError> {
        self.line = line;
        self.values.clear();
        self.begin_value()
    }

    fn begin_value(&mut self) -> Result<(), AllocError> {
        self.values.push(Vec::new(self.alloc))?;
        Ok(())
    }

    /// Puts a byte to the last value.
    fn put(&mut self, byte: u8) -> Result<(), AllocError> {
        if let Some(value) = self.values.last_mut() {
            value.push(byte)?;
        }
        Ok(())
    }
}

/// Where in a row a byte stands.
#[derive(Clone, Copy, PartialEq, Eq)]
enum CsvPlace {
    /// Before a row: ends of lines are passed over.
    Between,
    /// At the front of a value.
    Front,
    /// In a value without quotes.
    Plain,
    /// In quotes.
    Quoted,
    /// Behind a quote in quotes: their end, or the first of two.
    Quote,
}

/// The rows of a text. A value in quotes may have separators, ends of lines, and quotes, each twice; an empty line is no row.
#[derive(Drop)]
pub(crate) struct CsvRows<'a> {
    rest: &'a [u8],
    line: u64,
    /// The line of the quote that was opened last.
    quote: u64,
    separator: u8,
}

impl<'a> CsvRows<'a> {
    /// Those of this text, behind its byte order mark. The first comma, semicolon or tab of its first row separates all values.
    pub(crate) fn of(text: &'a [u8]) -> CsvRows<'a> {
        let rest = match text.strip_prefix(b"\xEF\xBB\xBF") {
            Some(rest) => rest,
            None => text,
        };
        CsvRows {
            rest,
            line: 1,
            quote: 1,
            separator: separator_of(rest),
        }
    }

    /// Reads the next row; tells whether there was one.
    ///
    /// # Errors
    /// - `OpenQuote`, `BehindQuote`: a quote takes more than its value, so that no row behind it can be told from another.
    /// - `Memory`: memory was refused.
    pub(crate) fn read(&mut self, row: &mut CsvRow) -> Result<bool, CsvFault> {
        let text = self.rest;
        let mut place = CsvPlace::Between;
        for (at, byte) in text.iter().enumerate() {
            if place == CsvPlace::Between && !is_end(*byte) {
                row.begin(self.line)?;
                place = CsvPlace::Front;
            }
            if is_end(*byte) && place != CsvPlace::Quoted {
                self.pass_end(*byte);
                if place != CsvPlace::Between {
                    self.rest = &text[at + 1..];
                    return Ok(true);
                }
            } else {
                place = self.put_byte(row, place, *byte)?;
                self.pass_end(*byte);
            }
        }
        self.rest = &[];
        match place {
            CsvPlace::Between => Ok(false),
            CsvPlace::Quoted => Err(CsvFault::OpenQuote(self.quote)),
            CsvPlace::Front | CsvPlace::Plain | CsvPlace::Quote => Ok(true),
        }
    }

    /// Counts a line where this byte ends one.
    fn pass_end(&mut self, byte: u8) {
        if byte == b'\n' {
            self.line = self.line.saturating_add(1);
        }
    }

    /// Puts a byte of a row where it belongs, and tells where the next one stands.
    fn put_byte(
        &mut self,
        row: &mut CsvRow,
        place: CsvPlace,
        byte: u8,
    ) -> Result<CsvPlace, CsvFault> {
        match (place, byte) {
            (CsvPlace::Quoted, b'"') => Ok(CsvPlace::Quote),
            (CsvPlace::Front, b'"') => {
                self.quote = self.line;
                Ok(CsvPlace::Quoted)
            }
            (CsvPlace::Quoted, _) | (CsvPlace::Quote, b'"') => {
                row.put(byte)?;
                Ok(CsvPlace::Quoted)
            }
            (_, byte) if byte == self.separator => {
                row.begin_value()?;
                Ok(CsvPlace::Front)
            }
            (CsvPlace::Quote, _) => Err(CsvFault::BehindQuote(self.quote)),
            _ => {
                row.put(byte)?;
                Ok(CsvPlace::Plain)
            }
        }
    }
}

/// Whether a byte ends a line.
fn is_end(byte: u8) -> bool {
    byte == b'\n' || byte == b'\r'
}

/// What separates values: the first comma, semicolon or tab of the first row outside of quotes; a comma where there is none.
fn separator_of(text: &[u8]) -> u8 {
    let mut is_quoted = false;
    let mut has_begun = false;
    for byte in text {
        match *byte {
            b',' | b';' | b'\t' if !is_quoted => return *byte,
            b'\n' | b'\r' if has_begun && !is_quoted => return b',',
            b'\n' | b'\r' => {}
            b'"' => {
                is_quoted = !is_quoted;
                has_begun = true;
            }
            _ => has_begun = true,
        }
    }
    b','
}
