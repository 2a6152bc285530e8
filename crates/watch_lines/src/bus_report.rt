//! The report of a bus, as `watch` writes it at its end, of which others hear the lines: it is written as often as that is wanted.

use crate::heard::Heard;
use crate::hearing::hear_line;
use crate::options::RunOptions;
use crate::page::write_page;
use bus_watch::{BusShown, Limits, MOST_METHODS, Selection, Silence, WatchSettings};
use can_frame::Frame;
use candump_line::{Line, Time};
use log_lines::LogFault;
use shop_texts::{Texts, UnitTexts};
use std::alloc::{AllocError, Global};
use std::io;
use std::io::Write;
use watch_reports::{ReportOptions, ReportPart, WatchForm};

/// What was heard of a bus, and how it is reported.
#[derive(Drop)]
pub struct BusReport {
    pub(crate) heard: Heard,
    form: WatchForm,
    limits: Limits,
    bus: String,
    pub(crate) units: UnitTexts,
    texts: Texts,
}

/// All that is told is shown, and a message under way may be silent as long as the standard has it.
const SHOWN: WatchSettings = WatchSettings {
    selection: Selection {
        address: None,
        unclaimed: true,
        unit: None,
        from: None,
        to: None,
        methods: [None; MOST_METHODS],
    },
    skips_bad: false,
    silence: Silence::Standard,
};

impl BusReport {
    /// Of the bus of this name, of which nothing was heard. `units` has texts for units.
    ///
    /// # Errors
    /// Memory was refused.
    pub fn new(
        alloc: Global,
        form: WatchForm,
        limits: Limits,
        bus: &str,
        units: UnitTexts,
    ) -> Result<BusReport, AllocError> {
        let heard = Heard::of(alloc, &SHOWN, BusShown::Named(bus), form)?;
        let bus = String::from_str(alloc, bus)?;
        Ok(BusReport {
            heard,
            form,
            limits,
            bus,
            units,
            texts: Texts::new(alloc),
        })
    }

    /// Whether as much is kept as may be: it is to be begun anew before the next line.
    pub fn is_full(&self) -> bool {
        self.heard.buses.is_full(self.limits)
    }

    /// Hears the frame of the line of this number.
    ///
    /// # Errors
    /// - `Memory`: memory was refused, and the frame may not have been heard.
    pub fn hear(
        &mut self,
        alloc: Global,
        number: u64,
        time: Option<Time>,
        frame: Frame,
    ) -> Result<(), LogFault> {
        let bus = Some(self.bus.as_str());
        let line = Line::Frame { time, bus, frame };
        let reports = reports_of(self.form, &self.units, &self.texts);
        let heard = &mut self.heard;
        hear_line(alloc, &mut io::sink(), heard, &reports, number, &line)
    }

    /// Is told that so many frames were missed behind the line of this number.
    ///
    /// # Errors
    /// - `Memory`: memory was refused, and it may not have been told.
    pub fn miss(&mut self, alloc: Global, number: u64, count: u32) -> Result<(), LogFault> {
        let bus = Some(self.bus.as_str());
        let line = Line::Dropped { bus, count };
        let reports = reports_of(self.form, &self.units, &self.texts);
        let heard = &mut self.heard;
        hear_line(alloc, &mut io::sink(), heard, &reports, number, &line)
    }

    /// Writes what was heard before the line of this number as a report by itself, and begins anew with the units that hold addresses.
    /// A page goes on: of that nothing is written.
    ///
    /// # Errors
    /// - `Write`: a write failed. - `Memory`: memory was refused.
    pub fn begin_anew<W: Write>(
        &mut self,
        alloc: Global,
        writer: &mut W,
        number: u64,
    ) -> Result<(), LogFault> {
        self.heard.settle();
        let part = ReportPart::Before {
            line: number,
            is_first: true,
        };
        self.write_part(writer, part)?;
        self.heard.end_before(number)?;
        self.heard.start_over(alloc)
    }

    /// Writes the report of what was heard so far, or since it was begun anew, and goes on.
    ///
    /// # Errors
    /// - `Write`: a write failed; how much was written by then is not told. - `Memory`: memory was refused.
    pub fn write<W: Write>(&mut self, alloc: Global, writer: &mut W) -> Result<(), LogFault> {
        self.heard.settle();
        if self.form == WatchForm::Html {
            return self.write_page(alloc, writer);
        }
        self.write_part(writer, ReportPart::Last { is_all: true })
    }

    /// Writes a report that is no page.
    fn write_part<W: Write>(&self, writer: &mut W, part: ReportPart) -> Result<(), LogFault> {
        let reports = reports_of(self.form, &self.units, &self.texts);
        self.heard.write_report(writer, &reports, part, None)
    }

    /// Writes the page, and goes on.
    fn write_page<W: Write>(&mut self, alloc: Global, writer: &mut W) -> Result<(), LogFault> {
        let lanes = self.heard.kept.copy_lanes()?;
        let written = self.write_whole_page(alloc, writer);
        self.heard.kept.put_lanes(lanes);
        written
    }

    /// Writes the page as that of a bus of which no more is heard.
    fn write_whole_page<W: Write>(
        &mut self,
        alloc: Global,
        writer: &mut W,
    ) -> Result<(), LogFault> {
        let bus = self.bus.as_str();
        let options = RunOptions {
            reports: reports_of(self.form, &self.units, &self.texts),
            limits: self.limits,
            bus: BusShown::Named(bus),
            since: None,
            from: None,
            to: None,
            title: bus,
            strict: false,
        };
        write_page(writer, alloc, &mut self.heard, &options, None)
    }
}

/// How it is reported.
fn reports_of<'a>(form: WatchForm, units: &'a UnitTexts, texts: &'a Texts) -> ReportOptions<'a> {
    ReportOptions {
        form,
        assumed: &[],
        units,
        texts,
        signals: None,
        clock: None,
    }
}
