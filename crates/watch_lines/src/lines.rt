use crate::absent::{frames_before, note_line, wanted_of};
use crate::heard::Heard;
use crate::hearing::{assume_owners, hear_line};
use crate::options::RunOptions;
use crate::page::write_page;
use crate::run::Watched;
use candump_line::{Line, read_line};
use log_lines::{Absence, LineClock, LinesEnd, LogFault, Notices, next_line};
use picture::SinceThen;
use std::alloc::Global;
use std::io::{BufReader, Read, Write};
use watch_reports::{ReportPart, WatchForm};

/// The watches while lines are read: where it is written what these change, and what is told beside it.
#[derive(Drop)]
pub(crate) struct LineWatch<'a, W, E> {
    pub(crate) alloc: Global,
    pub(crate) writer: &'a mut W,
    pub(crate) errors: &'a mut E,
    pub(crate) heard: &'a mut Heard,
    pub(crate) options: &'a RunOptions<'a>,
    /// Whether it was begun anew, since as much was kept as may be.
    pub(crate) is_anew: bool,
    notices: Notices,
    clock: LineClock,
    absence: Absence,
}

impl<'a, W: Write, E: Write> LineWatch<'a, W, E> {
    /// Before the first line.
    pub(crate) fn new(
        alloc: Global,
        writer: &'a mut W,
        errors: &'a mut E,
        heard: &'a mut Heard,
        options: &'a RunOptions<'a>,
    ) -> LineWatch<'a, W, E> {
        LineWatch {
            alloc,
            writer,
            errors,
            heard,
            options,
            is_anew: false,
            notices: Notices::new(),
            clock: LineClock::new(),
            absence: Absence::new(alloc),
        }
    }

    /// Reads all lines, and writes the report. What a line changes is written before the program waits for another; of bad lines, of
    /// times that do not count, and of an input without frames is told on `errors`. A strict run ends at the first bad line.
    pub(crate) fn watch<R: Read>(&mut self, reader: &mut BufReader<R>) -> Watched {
        if let Err(fault) = self.assume() {
            return Watched::failed(fault);
        }
        let end = self.hear_lines(reader);
        let ended = self.ended(end);
        Watched {
            ended: self.reported(ended),
            is_anew: self.is_anew,
        }
    }

    /// Has the watch of the only bus take in the assumed owners.
    fn assume(&mut self) -> Result<(), LogFault> {
        let options = &self.options.reports;
        assume_owners(self.alloc, self.writer, self.heard, 0, options)
    }

    /// Hears line by line. Tells whether the input came to its end.
    fn hear_lines<R: Read>(&mut self, reader: &mut BufReader<R>) -> Result<bool, LogFault> {
        let mut line = Vec::new(self.alloc);
        for number in 1..u64::MAX {
            if !next_line(reader, self.writer, &mut line)? {
                break;
            }
            let is_bad = self.take_line(number, line.as_slice())?;
            if is_bad && self.options.strict {
                return Ok(false);
            }
        }
        match self.clock.tell_rest(self.errors) {
            Ok(()) => Ok(true),
            Err(error) => Err(LogFault::of_write(error)),
        }
    }

    /// Hears the line of this number, and tells what there is to tell of it. Answers whether it is bad.
    fn take_line(&mut self, number: u64, text: &[u8]) -> Result<bool, LogFault> {
        let said = read_line(text);
        let is_bad = self.notices.take(self.errors, number, text, &said)?;
        self.make_room(number)?;
        let before = frames_before(&self.absence, &self.heard.buses);
        self.hear_timed(number, text, &said)?;
        if let Some(before) = before {
            note_line(&mut self.absence, &self.heard.buses, before, &said)?;
        }
        Ok(is_bad)
    }

    /// Has the watches hear a line, with its time where that counts.
    fn hear_timed(&mut self, number: u64, text: &[u8], said: &Line<'_>) -> Result<(), LogFault> {
        match self.clock.counts(self.errors, number, text, said) {
            Ok(true) => self.hear(number, said),
            Ok(false) => self.hear_untimed(number, said),
            Err(error) => Err(LogFault::of_write(error)),
        }
    }

    #[inline(never)]
    fn hear_untimed(&mut self, number: u64, said: &Line<'_>) -> Result<(), LogFault> {
        self.hear(number, &said.untimed())
    }

    /// Has the watches hear a line, and writes what it changes.
    fn hear(&mut self, number: u64, said: &Line<'_>) -> Result<(), LogFault> {
        let options = &self.options.reports;
        hear_line(self.alloc, self.writer, self.heard, options, number, said)
    }

    /// How a run ended that came to the end of the input or not, or failed.
    fn ended(&mut self, end: Result<bool, LogFault>) -> LinesEnd {
        let ended = self.notices.ended(self.errors, end);
        let wanted = wanted_of(self.options);
        self.absence
            .ended(self.errors, &wanted, end.unwrap_or(false), ended)
    }

    /// Writes the report, but where writing has failed.
    fn reported(&mut self, ended: LinesEnd) -> LinesEnd {
        if ended.fault == Some(LogFault::Write) {
            return ended;
        }
        let fault = match self.write_out() {
            Ok(()) => ended.fault,
            Err(fault) => Some(fault),
        };
        LinesEnd { fault, ..ended }
    }

    /// Writes the report, and what is still to be written.
    fn write_out(&mut self) -> Result<(), LogFault> {
        self.heard.settle();
        let since = self.heard.since(self.alloc, self.options.since)?;
        self.write_last(slice_of(&since))?;
        match self.writer.flush() {
            Ok(()) => Ok(()),
            Err(_) => Err(LogFault::Write),
        }
    }

    /// Writes the last report, or the page.
    fn write_last(&mut self, since: Option<&[SinceThen]>) -> Result<(), LogFault> {
        let options = &self.options.reports;
        match options.form {
            WatchForm::Html => write_page(self.writer, self.alloc, self.heard, self.options, since),
            _ => {
                let part = ReportPart::Last {
                    is_all: !self.is_anew,
                };
                self.heard.write_report(self.writer, options, part, since)
            }
        }
    }

    /// Reports what was heard so far, and goes on.
    pub(crate) fn write_report(&mut self, part: ReportPart) -> Result<(), LogFault> {
        let options = &self.options.reports;
        self.heard.write_report(self.writer, options, part, None)
    }
}

/// The changes, lent.
fn slice_of(since: &Option<Vec<SinceThen>>) -> Option<&[SinceThen]> {
    match since {
        Some(since) => Some(since.as_slice()),
        None => None,
    }
}
