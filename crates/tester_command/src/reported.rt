//! A tester whose bus is reported.

use crate::on_bus::Tester;
use crate::report::{ReportFile, Reporter};
use can_frame::Frame;
use live_lines::{HeardFrame, OnBus};
use log_lines::LinesEnd;
use std::alloc::{AllocError, Global};
use std::io::Write;

/// A tester, and who reports what its bus said, where that is wanted.
#[derive(Drop)]
pub(crate) struct Reported<F> {
    tester: Tester,
    reporter: Option<Reporter<F>>,
}

impl<F: ReportFile> Reported<F> {
    /// These, of which none has heard anything.
    pub(crate) fn new(tester: Tester, reporter: Option<Reporter<F>>) -> Reported<F> {
        Reported { tester, reporter }
    }
}

impl<F: ReportFile> OnBus for Reported<F> {
    fn hear<N: Write>(&mut self, alloc: Global, heard: &HeardFrame, now: u64, notes: &mut N) {
        if let Some(reporter) = &mut self.reporter {
            if reporter.hear(alloc, heard) {
                self.tester.teller.anew(notes, heard.line);
            }
        }
        self.tester.hear(alloc, heard, now, notes);
    }

    fn miss<N: Write>(&mut self, alloc: Global, count: u32, now: u64, notes: &mut N) {
        if let Some(reporter) = &mut self.reporter {
            reporter.miss(alloc, self.tester.teller.mark.line, count);
        }
        self.tester.miss(alloc, count, now, notes);
    }

    fn echo<N: Write>(&mut self, alloc: Global, written: &HeardFrame, now: u64, notes: &mut N) {
        self.tester.echo(alloc, written, now, notes);
    }

    fn step<N: Write>(&mut self, alloc: Global, now: u64, notes: &mut N) -> Option<Frame> {
        if let Some(reporter) = &mut self.reporter {
            reporter.step(now, notes);
        }
        self.tester.step(alloc, now, notes)
    }

    fn next(&self, now: u64) -> u64 {
        let due = self.tester.next(now);
        match &self.reporter {
            Some(reporter) => due.min(reporter.next(now)),
            None => due,
        }
    }

    fn is_done(&self) -> bool {
        self.tester.is_done()
    }

    fn order(
        &mut self,
        alloc: Global,
        line: &[u8],
        now: u64,
        notes: &mut Vec<u8>,
    ) -> Result<(), AllocError> {
        self.tester.order(alloc, line, now, notes)
    }

    fn close<N: Write>(&mut self, now: u64, notes: &mut N) {
        self.tester.close(now, notes);
        if let Some(reporter) = &mut self.reporter {
            reporter.draw_last(notes);
            reporter.write();
        }
    }

    fn ended<E: Write>(&self, errors: &mut E, lines: LinesEnd) -> LinesEnd {
        let ended = self.tester.ended(errors, lines);
        match &self.reporter {
            Some(reporter) => reporter.ended(ended),
            None => ended,
        }
    }

    fn is_content(&self) -> bool {
        self.tester.is_content()
    }
}
