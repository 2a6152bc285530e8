use crate::code_texts::Texts;
use crate::sheet::Sheet;
use crate::sheet_fault::{ColumnNames, RowFault, SheetFault, WrongLines};
use std::alloc::{AllocError, Global};
use trouble_code::{GREATEST_FMI, GREATEST_SPN};

/// What the columns of the file may be.
const NAMES: [&'static str; 3] = ["spn", "fmi", "text"];

const SPN: usize = 0;

const FMI: usize = 1;

const TEXT: usize = 2;

impl Texts {
    /// The texts of a shop's file.
    ///
    /// Its columns are `text` and one or both of `spn` and `fmi`, in any order. An empty FMI names the SPN alone, an empty SPN the
    /// FMI. Of two texts for the same the later stays.
    ///
    /// # Errors
    /// - `Refused`: the first line names other columns; or a line has another number of values, a number that is none of its range,
    ///   neither number, or a text that is no UTF-8. Each is told.
    /// - `Memory`: memory was refused.
    pub fn read(alloc: Global, text: &[u8]) -> Result<Texts, SheetFault> {
        let mut texts = Texts::new(alloc);
        let mut told = WrongLines::new(alloc, "texts");
        read_all(alloc, text, &mut texts, &mut told)?;
        match told.ended() {
            Ok(()) => Ok(texts),
            Err(fault) => Err(fault),
        }
    }
}

/// Reads all lines, and tells of wrong ones.
fn read_all(
    alloc: Global,
    text: &[u8],
    texts: &mut Texts,
    told: &mut WrongLines<'_>,
) -> Result<(), AllocError> {
    match Sheet::open(alloc, ColumnNames(&NAMES), text, told) {
        Ok(Some(sheet)) => read_rows(alloc, sheet, texts, told),
        Ok(None) => Ok(()),
        Err(error) => Err(error),
    }
}

fn read_rows(
    alloc: Global,
    mut sheet: Sheet<'_>,
    texts: &mut Texts,
    told: &mut WrongLines<'_>,
) -> Result<(), AllocError> {
    for _ in 0..u64::MAX {
        if !sheet.read(told)? {
            break;
        }
        match values_of(&sheet) {
            Ok(values) => texts.add(alloc, values)?,
            Err(wrong) => told.tell(sheet.line(), wrong)?,
        }
    }
    Ok(())
}

/// What a row says.
#[derive(Clone, Copy)]
pub(crate) struct Values<'a> {
    pub(crate) numbers: Numbers,
    pub(crate) text: &'a str,
}

/// What a text is for.
#[derive(Clone, Copy)]
pub(crate) enum Numbers {
    Spn(u32),
    Fmi(u32),
    Both { spn: u32, fmi: u32 },
}

fn values_of<'a>(sheet: &'a Sheet<'_>) -> Result<Values<'a>, RowFault<'a>> {
    let spn = sheet.number(SPN, GREATEST_SPN, "0 to 524287")?;
    let fmi = sheet.number(FMI, u32::from(GREATEST_FMI), "0 to 31")?;
    let numbers = match (spn, fmi) {
        (Some(spn), Some(fmi)) => Numbers::Both { spn, fmi },
        (Some(spn), None) => Numbers::Spn(spn),
        (None, Some(fmi)) => Numbers::Fmi(fmi),
        (None, None) => return Err(RowFault::NoKey(sheet.names())),
    };
    let text = sheet.text(TEXT)?;
    Ok(Values { numbers, text })
}
