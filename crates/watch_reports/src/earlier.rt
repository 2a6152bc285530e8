//! The report of an earlier visit, as `watch` writes it in JSON.

use json::{Error, Scratch, Value};
use name_field::Name;
use picture::{EarlierVisit, Sender, VisitCode, VisitUnit};
use shop_texts::{RowFault, SheetFault, WrongLines};
use std::alloc::{AllocError, Global};
use trouble_code::Dtc;

/// What units told in an earlier visit, of what `watch --format json` wrote: its last line is the report.
///
/// # Errors
/// - `Refused`: the last line is none; it is told.
/// - `Memory`: memory was refused.
pub fn read_visit(alloc: Global, file: &[u8]) -> Result<EarlierVisit, SheetFault> {
    let mut last = file;
    let (mut number, mut at) = (0u64, 1u64);
    for line in file.split(|byte| *byte == b'\n') {
        number = number.saturating_add(1);
        if !line.trim_ascii().is_empty() {
            last = line;
            at = number;
        }
    }
    if last.starts_with(BEGIN) {
        read_report(alloc, at, last)
    } else {
        Err(refused(alloc, at, NO_REPORT))
    }
}

/// How the line of a report begins.
const BEGIN: &[u8] = b"{\"event\":\"report\",";

/// That the last line is no report.
const NO_REPORT: RowFault<'static> = RowFault::NoValue(
    "file",
    "its last line",
    "a report, as watch --format json writes it",
);

/// That a report can't be read.
const NO_VISIT: RowFault<'static> = RowFault::NoValue("report", "it", "JSON as watch writes it");

/// What is wrong with a line.
fn refused(alloc: Global, number: u64, fault: RowFault<'_>) -> SheetFault {
    let mut told = WrongLines::new(alloc, "since");
    if told.tell(number, fault).is_err() {
        return SheetFault::Memory;
    }
    match told.ended() {
        Ok(()) => SheetFault::Memory,
        Err(fault) => fault,
    }
}

/// The visit of the report in this line.
fn read_report(alloc: Global, number: u64, line: &[u8]) -> Result<EarlierVisit, SheetFault> {
    let mut scratch = Scratch::new(alloc);
    let report = match Value::from_slice(alloc, line.trim_ascii_end(), &mut scratch) {
        Ok(report) => report,
        Err(Error::OutOfMemory) => return Err(SheetFault::Memory),
        Err(_) => return Err(refused(alloc, number, NO_VISIT)),
    };
    match visit_of(alloc, &report)? {
        Some(visit) => Ok(visit),
        None => Err(refused(alloc, number, NO_VISIT)),
    }
}

/// The units of a report; none where it has no rows.
fn visit_of(alloc: Global, report: &Value<'_>) -> Result<Option<EarlierVisit>, AllocError> {
    let Some(Value::Array(rows)) = report.get("rows") else {
        return Ok(None);
    };
    let mut units = Vec::new(alloc);
    for row in rows {
        let Some(sender) = sender_of(row) else {
            return Ok(None);
        };
        let codes = codes_of(alloc, row)?;
        units.push(VisitUnit { sender, codes })?;
    }
    Ok(Some(EarlierVisit { units }))
}

/// Whose row it is.
fn sender_of(row: &Value<'_>) -> Option<Sender> {
    match row.get("name")? {
        Value::String(name) => match Name::read_hex(name) {
            Ok(name) => Some(Sender::Named(name.number())),
            Err(_) => None,
        },
        _ => {
            let address = u8::try_from(row.get("address")?.as_u64()?).ok()?;
            Some(Sender::Unclaimed { address, gaps: 0 })
        }
    }
}

/// The codes that a row tells by DM1: those of the newest, and all that were ever told.
fn codes_of(alloc: Global, row: &Value<'_>) -> Result<Vec<VisitCode>, AllocError> {
    let mut codes = Vec::new(alloc);
    add_codes(&mut codes, newest_codes(row), true)?;
    add_codes(&mut codes, ever_codes(row), false)?;
    Ok(codes)
}

/// The codes of the newest DM1 of a row.
fn newest_codes<'a, 'b>(row: &'a Value<'b>) -> Option<&'a Value<'b>> {
    let Some(Value::Array(runs)) = row.get("dm1") else {
        return None;
    };
    runs.last()?.get("codes")
}

/// The codes that were ever told by DM1.
fn ever_codes<'a, 'b>(row: &'a Value<'b>) -> Option<&'a Value<'b>> {
    row.get("ever")?.get("dm1")?.get("codes")
}

/// Adds codes that stood at the end or did not, where they are not there.
fn add_codes(
    codes: &mut Vec<VisitCode>,
    found: Option<&Value<'_>>,
    stood: bool,
) -> Result<(), AllocError> {
    let Some(Value::Array(list)) = found else {
        return Ok(());
    };
    for one in list {
        if let Some(code) = code_of(one, stood) {
            add(codes, code)?;
        }
    }
    Ok(())
}

fn code_of(one: &Value<'_>, stood: bool) -> Option<VisitCode> {
    let spn = u32::try_from(one.get("spn")?.as_u64()?).ok()?;
    let fmi = u8::try_from(one.get("fmi")?.as_u64()?).ok()?;
    match Dtc::new(spn, fmi, 1) {
        Ok(_) => Some(VisitCode { spn, fmi, stood }),
        Err(_) => None,
    }
}

fn add(codes: &mut Vec<VisitCode>, code: VisitCode) -> Result<(), AllocError> {
    for one in codes.as_slice() {
        if one.spn == code.spn && one.fmi == code.fmi {
            return Ok(());
        }
    }
    codes.push(code)?;
    Ok(())
}
