//! The report of what the bus of a tester said.
ghost use Rattle.std.specs.Prelude.{◌≤◌};

use crate::screen::TABLE_MARK;
use live_lines::HeardFrame;
use log_lines::{LinesEnd, LogFault};
use std::alloc::Global;
use std::io;
use std::io::Write;
use watch_lines::BusReport;

/// Where reports are put: each in whole, so that nobody reads half of one.
pub trait ReportFile: Drop {
    /// Puts a report in the place of the one before. One of a part, from 1, stands beside those that follow.
    ///
    /// # Errors
    /// It could not be written.
    fn put(&mut self, part: Option<u64>, report: &[u8]) -> io::Result<()>;
}

/// How long it is from one table to the next, in microseconds.
const DRAWN_EACH: u64 = 250_000;

/// The report of a bus, and when it is written.
#[derive(Drop)]
pub(crate) struct Reporter<F> {
    alloc: Global,
    report: BusReport,
    /// Where it is put, if anywhere.
    file: Option<F>,
    /// When the table is drawn the next time, where it is.
    table_due: Option<u64>,
    /// How long it is from a report to the next, in microseconds; none: it is written at the end alone.
    every: Option<u64>,
    due: Option<u64>,
    /// How often it was begun anew.
    parts: u64,
    /// Why a report was not written, or a line is missing in it.
    fault: Option<LogFault>,
    /// Whether memory was refused for what was heard: it hears nothing more.
    is_short: bool,
}

impl<F: ReportFile> Reporter<F> {
    /// One who has heard nothing, and draws a table or none.
    pub(crate) fn new(
        alloc: Global,
        report: BusReport,
        file: Option<F>,
        every: Option<u64>,
        has_table: bool,
    ) -> Reporter<F> {
        Reporter {
            alloc,
            report,
            file,
            table_due: if has_table { Some(0) } else { None },
            every,
            due: None,
            parts: 0,
            fault: None,
            is_short: false,
        }
    }

    /// Hears a frame. Where as much is kept as may be, what was heard before stands in a file of its own. Answers whether that is so
    /// for the first time.
    pub(crate) fn hear(&mut self, alloc: Global, heard: &HeardFrame) -> bool {
        if self.is_short {
            return false;
        }
        let is_first = self.report.is_full() && self.begin_anew(alloc, heard.line);
        let ended = self.report.hear(alloc, heard.line, heard.time, heard.frame);
        self.note_heard(ended);
        is_first
    }

    /// So many frames were missed behind the line of this number.
    pub(crate) fn miss(&mut self, alloc: Global, line: u64, count: u32) {
        if !self.is_short {
            let ended = self.report.miss(alloc, line, count);
            self.note_heard(ended);
        }
    }

    /// Draws the table, where it is due at this time, and writes the report, where that is.
    pub(crate) fn step<N: Write>(&mut self, now: u64, notes: &mut N) {
        match self.table_due {
            Some(due) if due <= now => {
                self.table_due = Some(now.saturating_add(DRAWN_EACH));
                self.draw(notes);
            }
            _ => {}
        }
        self.step_report(now);
    }

    /// Draws the table, where there is one.
    pub(crate) fn draw_last<N: Write>(&mut self, notes: &mut N) {
        if self.table_due.is_some() {
            self.draw(notes);
        }
    }

    /// Draws the table. (Where memory is refused, the one before stays.)
    fn draw<N: Write>(&self, notes: &mut N) {
        let mut table = Vec::new(self.alloc);
        if table.push(TABLE_MARK).is_ok()
            && self.report.write_table(&mut table).is_ok()
            && table.push(TABLE_MARK).is_ok()
        {
            let _ = notes.write_all(table.as_slice());
        }
    }

    /// Writes the report, where it is due at this time.
    fn step_report(&mut self, now: u64) {
        let Some(every) = self.every else {
            return;
        };
        match self.due {
            Some(due) if due > now => {}
            due => {
                self.due = Some(now.saturating_add(every));
                if due.is_some() {
                    self.write();
                }
            }
        }
    }

    /// When it is due, at this time or later.
    pub(crate) fn next(&self, now: u64) -> u64
        ensures { now ≤ result }
    {
        let table = self.table_due.unwrap_or(u64::MAX).max(now);
        match (self.every, self.due) {
            (Some(_), Some(due)) => due.max(now).min(table),
            (Some(_), None) => now,
            (None, _) => table,
        }
    }

    /// Writes the report of what was heard so far.
    pub(crate) fn write(&mut self) {
        if self.file.is_none() {
            return;
        }
        let mut text = Vec::new(self.alloc);
        match self.report.write(self.alloc, &mut text) {
            Ok(()) => self.put(None, text.as_slice()),
            Err(_) => self.note(LogFault::Memory),
        }
    }

    /// How a run ended whose lines ended so: where a report was not written, with its fault; that it was begun anew counts as lines
    /// that were not read do.
    pub(crate) fn ended(&self, lines: LinesEnd) -> LinesEnd {
        LinesEnd {
            fault: lines.fault.or(self.fault),
            is_unread: lines.is_unread || self.parts > 0 && self.file.is_some(),
            ..lines
        }
    }

    /// Begins anew before the line of this number. Answers whether it is the first time.
    fn begin_anew(&mut self, alloc: Global, line: u64) -> bool {
        self.parts = self.parts.saturating_add(1);
        let mut text = Vec::new(alloc);
        let ended = self.report.begin_anew(alloc, &mut text, line);
        if ended.is_ok() && !text.is_empty() {
            self.put(Some(self.parts), text.as_slice());
        }
        self.note_heard(ended);
        self.parts == 1 && self.file.is_some()
    }

    /// Puts a report.
    fn put(&mut self, part: Option<u64>, text: &[u8]) {
        let ended = match &mut self.file {
            Some(file) => file.put(part, text),
            None => Ok(()),
        };
        if let Err(error) = ended {
            self.note(LogFault::of_write(error));
        }
    }

    /// How it went to hear something. (What is written into memory fails for want of that alone.)
    fn note_heard(&mut self, ended: Result<(), LogFault>) {
        if ended.is_err() {
            self.is_short = true;
            self.note(LogFault::Memory);
        }
    }

    /// The first fault counts.
    fn note(&mut self, fault: LogFault) {
        if self.fault.is_none() {
            self.fault = Some(fault);
        }
    }
}
