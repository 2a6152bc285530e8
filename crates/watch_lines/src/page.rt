use crate::heard::Heard;
use crate::options::RunOptions;
use log_lines::{ClockForm, LogFault};
use picture::SinceThen;
use std::alloc::Global;
use std::io::Write;
use watch_page::{PageFault, View};

/// Writes the report as a page.
pub(crate) fn write_page<W: Write>(
    writer: &mut W,
    alloc: Global,
    heard: &mut Heard,
    options: &RunOptions<'_>,
    since: Option<&[SinceThen]>,
) -> Result<(), LogFault> {
    heard.kept.finish(&heard.buses)?;
    write_finished(writer, alloc, heard, options, since)
}

/// Writes the page of a picture that is finished.
fn write_finished<W: Write>(
    writer: &mut W,
    alloc: Global,
    heard: &Heard,
    options: &RunOptions<'_>,
    since: Option<&[SinceThen]>,
) -> Result<(), LogFault> {
    let Some(picture) = heard.kept.picture() else {
        return Ok(());
    };
    let reports = options.reports;
    let view = View {
        alloc,
        title: options.title,
        picture,
        ever: heard.kept.ever(),
        values: heard.kept.values(reports.signals),
        since,
        buses: heard.buses.watches(),
        units: reports.units,
        texts: reports.texts,
        clock: reports.clock.unwrap_or(clock_for(picture.start())),
        anew_at: heard.kept.anew_at(),
    };
    match watch_page::write_page(writer, &view) {
        Ok(()) => Ok(()),
        Err(PageFault::Write) => Err(LogFault::Write),
        Err(PageFault::Memory) => Err(LogFault::Memory),
    }
}

/// The least time that is taken for one since the start of 1970, in microseconds: one of the year 2001.
const LEAST_DATE: u64 = 1_000_000_000_000_000;

/// The clock for a page whose times begin so, where none is asked for.
fn clock_for(start: u64) -> ClockForm<'static> {
    if start >= LEAST_DATE {
        ClockForm::Utc
    } else {
        ClockForm::Relative
    }
}
