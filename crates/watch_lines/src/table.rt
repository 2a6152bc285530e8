//! The table of what is heard of a bus now, for a terminal.

use crate::bus_report::BusReport;
use bus_watch::{EntryRun, Watch, Who};
use candump_line::Time;
use dm_messages::Kind;
use dm_words::{CodeWords, LampBytes, LampWords};
use name_field::Name;
use shop_texts::UnitTexts;
use std::io::Write;
use std::{fmt, io};
use watch_reports::KINDS;

/// How many units the table has at most: a terminal shows no more than it has lines.
const MOST_ROWS: usize = 20;

impl BusReport {
    /// Writes the units that hold an address, the first 20 of them in the order of their claims, a line each: the address, how many
    /// seconds before the newest line a DM1, DM2 or DM6 of the unit was heard, the unit in words, and the lamps and codes of its
    /// newest DM1.
    ///
    /// # Errors
    /// A write failed.
    pub fn write_table<W: Write>(&self, writer: &mut W) -> io::Result<()> {
        writeln!(writer, "address  last heard  unit; lamps; codes")?;
        for one in self.heard.buses.watches().iter() {
            write_rows(writer, &one.watch, &self.units)?;
        }
        Ok(())
    }
}

/// Writes a line for each of the first units, and how many there are beside them.
fn write_rows<W: Write>(writer: &mut W, watch: &Watch, units: &UnitTexts) -> io::Result<()> {
    let mut count: usize = 0;
    for place in 0..watch.names() {
        if let Some(row) = row_at(watch, place, units) {
            if count < MOST_ROWS {
                writeln!(writer, "{row}")?;
            }
            count = count.saturating_add(1);
        }
    }
    match count.checked_sub(MOST_ROWS) {
        Some(more) if more > 0 => writeln!(writer, "and {more} more"),
        _ => Ok(()),
    }
}

/// The line of a unit.
#[derive(Clone, Copy)]
struct TableRow<'a> {
    address: u8,
    name: Name,
    /// How long before the newest line it was heard, in seconds.
    since: Option<u64>,
    newest: Option<&'a EntryRun>,
    units: &'a UnitTexts,
}

/// The line of the NAME at this place, where it holds an address.
fn row_at<'a>(watch: &'a Watch, place: usize, units: &'a UnitTexts) -> Option<TableRow<'a>> {
    let name = watch.name_at(place)?;
    let address = address_of(watch, name)?;
    Some(TableRow {
        address,
        name,
        since: since(watch, Who::Named(name)),
        newest: watch.runs(Who::Named(name), Kind::Dm1).last(),
        units,
    })
}

/// The address that a NAME holds, if it holds one.
fn address_of(watch: &Watch, name: Name) -> Option<u8> {
    match watch.row(name) {
        Some(row) => row.address,
        None => None,
    }
}

/// How many seconds before the newest line a message of a unit was heard, where one was and lines have times.
fn since(watch: &Watch, who: Who) -> Option<u64> {
    let mut last: Option<Time> = None;
    for kind in KINDS {
        if let Some(run) = watch.runs(who, kind).last() {
            last = later(last, run.last);
        }
    }
    let passed = watch.now()?.micros().saturating_sub(last?.micros());
    Some(passed / 1_000_000)
}

/// The later one of two times.
fn later(one: Option<Time>, other: Option<Time>) -> Option<Time> {
    match (one, other) {
        (Some(first), Some(second)) if first.micros() < second.micros() => Some(second),
        (None, second) => second,
        (first, _) => first,
    }
}

impl fmt::Display for TableRow<'_> {
    fn fmt<W: fmt::Write>(&self, f: &mut fmt::Formatter<W>) -> fmt::Result {
        let address = self.address;
        write!(f, "{address:>7}  ")?;
        match self.since {
            Some(seconds) => write!(f, "{seconds:>8} s  ")?,
            None => write!(f, "         -  ")?,
        }
        let unit = self.units.words_of(self.name);
        write!(f, "{unit}; ")?;
        match self.newest {
            Some(run) => {
                let lamps = LampWords(run.shown.lamps);
                let bytes = LampBytes(run.shown.lamps);
                let codes = CodeWords(run.shown.codes.as_slice());
                write!(f, "{lamps} ({bytes}); {codes}")
            }
            None => write!(f, "-"),
        }
    }
}
