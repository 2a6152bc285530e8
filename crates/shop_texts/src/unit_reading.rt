use crate::sheet::Sheet;
use crate::sheet_fault::{ColumnNames, RowFault, SheetFault, WrongLines};
use crate::unit_row::UnitRow;
use crate::unit_texts::UnitTexts;
use name_field::Name;
use std::alloc::{AllocError, Global};

/// What the columns of the file may be.
const NAMES: [&'static str; 6] = [
    "name",
    "function",
    "industry_group",
    "vehicle_system",
    "manufacturer",
    "text",
];

const NAME: usize = 0;

const FUNCTION: usize = 1;

const INDUSTRY_GROUP: usize = 2;

const VEHICLE_SYSTEM: usize = 3;

const MANUFACTURER: usize = 4;

const TEXT: usize = 5;

impl UnitTexts {
    /// The texts of a shop's file.
    ///
    /// Its columns are `text` and one or more of `name` (16 hexadecimal digits), `function` (0 to 255), `industry_group` (0 to 7),
    /// `vehicle_system` (0 to 127) and `manufacturer` (0 to 2047), in any order. Each line is a text for the units that have what it gives; a value that is empty gives nothing.
    ///
    /// # Errors
    /// - `Refused`: the first line names other columns; or a line has another number of values, a value that its column does not
    ///   take, an empty text, or nothing that it is for. Each is told.
    /// - `Memory`: memory was refused.
    pub fn read(alloc: Global, text: &[u8]) -> Result<UnitTexts, SheetFault> {
        let mut texts = UnitTexts::new(alloc);
        let mut told = WrongLines::new(alloc, "units");
        read_all(alloc, text, &mut texts, &mut told)?;
        match told.ended() {
            Ok(()) => Ok(texts),
            Err(fault) => Err(fault),
        }
    }
}

/// Reads all lines, and tells of wrong ones.
fn read_all(
    alloc: Global,
    text: &[u8],
    texts: &mut UnitTexts,
    told: &mut WrongLines<'_>,
) -> Result<(), AllocError> {
    match Sheet::open(alloc, ColumnNames(&NAMES), text, told) {
        Ok(Some(sheet)) => read_rows(alloc, sheet, texts, told),
        Ok(None) => Ok(()),
        Err(error) => Err(error),
    }
}

fn read_rows(
    alloc: Global,
    mut sheet: Sheet<'_>,
    texts: &mut UnitTexts,
    told: &mut WrongLines<'_>,
) -> Result<(), AllocError> {
    for _ in 0..u64::MAX {
        if !sheet.read(told)? {
            break;
        }
        match values_of(&sheet) {
            Ok(values) => texts.add(values.row(alloc)?)?,
            Err(wrong) => told.tell(sheet.line(), wrong)?,
        }
    }
    Ok(())
}

/// What a row says.
#[derive(Clone, Copy)]
struct Values<'a> {
    name: Option<Name>,
    function: Option<u8>,
    industry_group: Option<u8>,
    vehicle_system: Option<u8>,
    manufacturer: Option<u16>,
    text: &'a str,
}

impl Values<'_> {
    /// The same, with its text kept.
    fn row(self, alloc: Global) -> Result<UnitRow, AllocError> {
        let text = String::from_str(alloc, self.text)?;
        Ok(UnitRow {
            name: self.name,
            function: self.function,
            industry_group: self.industry_group,
            vehicle_system: self.vehicle_system,
            manufacturer: self.manufacturer,
            text,
        })
    }
}

fn values_of<'a>(sheet: &'a Sheet<'_>) -> Result<Values<'a>, RowFault<'a>> {
    let name = name_of(sheet)?;
    let function = byte_of(sheet, FUNCTION, 255, "0 to 255")?;
    let industry_group = byte_of(sheet, INDUSTRY_GROUP, 7, "0 to 7")?;
    let vehicle_system = byte_of(sheet, VEHICLE_SYSTEM, 127, "0 to 127")?;
    let manufacturer = manufacturer_of(sheet)?;
    let text = sheet.word(TEXT)?;
    let of_system = industry_group.is_some() || vehicle_system.is_some();
    if name.is_none() && function.is_none() && !of_system && manufacturer.is_none() {
        return Err(RowFault::NoKey(sheet.names()));
    }
    if text.is_empty() {
        return Err(RowFault::Empty);
    }
    Ok(Values {
        name,
        function,
        industry_group,
        vehicle_system,
        manufacturer,
        text,
    })
}

fn name_of<'a>(sheet: &'a Sheet<'_>) -> Result<Option<Name>, RowFault<'a>> {
    let word = sheet.word(NAME)?;
    if word.is_empty() {
        return Ok(None);
    }
    match Name::read_hex(word) {
        Ok(name) => Ok(Some(name)),
        Err(_) => Err(sheet.refused(NAME, word, "16 hexadecimal digits")),
    }
}

/// The number of a column that is a byte at most.
fn byte_of<'a>(
    sheet: &'a Sheet<'_>,
    column: usize,
    most: u8,
    range: &'static str,
) -> Result<Option<u8>, RowFault<'a>> {
    match sheet.number(column, u32::from(most), range)? {
        Some(number) => Ok(u8::try_from(number).ok()),
        None => Ok(None),
    }
}

fn manufacturer_of<'a>(sheet: &'a Sheet<'_>) -> Result<Option<u16>, RowFault<'a>> {
    match sheet.number(MANUFACTURER, 2047, "0 to 2047")? {
        Some(number) => Ok(Some(number as u16)),
        None => Ok(None),
    }
}
