//! Who takes part in a bus by the times of the lines that are heard: nothing waits, and what is written is the same each time.
ghost use Rattle.std.specs.Prelude.{◌≡◌, ℕ, ◌≤◌, List, Option, Some, IfOk, IfSome, OnOk, is_some, string_bytes};
ghost use Rattle.std.specs.Io.KnownBytes.{Appends};
ghost use Rattle.std.specs.Option.{unwrap_or};
ghost use Rattle.can_frame.specs.FrameValue.{FrameValue};
ghost use Rattle.live_lines.specs.Playing.{begins_anew as is_anew, heard_at, went_text, IsAsking, PlaysHeard, PlaysLine, PlaysMissed, PlaysOut, PlaysTo, StandsAt, clock_before};
ghost use Rattle.live_lines.specs.Reading.{line_behind, IsReadSo};
ghost use Rattle.live_lines.specs.declared.ear.Heard.{Heard as AnyHeard};

use crate::ear::{Ear, HeardFrame};
use crate::on_bus::OnBus;
use can_frame::Frame;
use candump_line::{Time, write_line};
use log_lines::{LinesEnd, LogFault};
use std::alloc::Global;
use std::io::Write;

/// How much later than the line before a line may be for what is due in between to be written: a day, in microseconds.
const LONGEST_PAUSE: u64 = 86_400_000_000;

/// Who takes part in a bus, and the lines that are heard at the times of these.
#[derive(Drop)]
pub struct Playback<B> {
    on_bus: B,
    ear: Ear,
    /// The greatest time of a line so far, in microseconds.
    clock: Option<u64>,
    /// Whether a line had a time.
    is_timed: bool,
}

impl<B: OnBus> Playback<B> {
    /// Who has heard no line.
    pub fn new(on_bus: B, ear: Ear) -> Playback<B> {
        Playback {
            on_bus,
            ear,
            clock: None,
            is_timed: false,
        }
    }

    /// Takes a line, with its end. What is due before its time, or at it, is written first, each frame as a line with the time at
    /// which it is due, and heard by all who take part; then the frame of the line is heard. A line without a time, or with an
    /// earlier one than the line before, is heard at the time of that, or at 0 before any line had one. A bad line is told on
    /// `errors`. Answers whether the line is bad.
    ///
    /// At the first time of all, and at one more than a day after that of the line before, the clock begins anew: what was due
    /// before is written then, and not what would have become due in between.
    ///
    /// # Errors
    /// `Write`: a line could not be written.
    pub fn take<W: Write, E: Write>(
        &mut self,
        alloc: Global,
        line: &[u8],
        writer: &mut W,
        errors: &mut E,
    ) -> Result<bool, LogFault>
        requires { Unit {0} }
        ensures played { OnOk result ((heard : AnyHeard) × (text : List ℕ)
            × IsReadSo (string_bytes self.old.ear.bus) self.old.ear.number line.now heard
            × PlaysLine (record { does = B.OnBus.does; looks = B.OnBus.looks }) (string_bytes self.old.ear.bus) self.new.ear.number
            self.old.clock self.old.is_timed heard.missed heard.frame self.old.on_bus self.new.on_bus text
            × Appends (W.contents writer.old) (W.contents writer.new) text
            × StandsAt heard.frame self.old.clock self.old.is_timed self.new.clock self.new.is_timed) }
        ensures bus { OnOk result (string_bytes self.new.ear.bus ≡ string_bytes self.old.ear.bus) }
        ensures number { OnOk result (self.new.ear.number ≡ line_behind self.old.ear.number) }
    {
        let heard = self.ear.read(line, errors)?;
        self.tell_missed(alloc, heard.missed, writer, errors)?;
        if let Some(frame) = &heard.frame {
            self.play(alloc, frame, writer, errors)?;
        }
        Ok(heard.is_bad)
    }

    /// Tells of frames that were not read, where there are any, behind what is due at the time of the last line.
    fn tell_missed<W: Write, E: Write>(
        &mut self,
        alloc: Global,
        missed: u32,
        writer: &mut W,
        errors: &mut E,
    ) -> Result<(), LogFault>
        requires { Unit {0} }
        ensures told { OnOk result ((text : List ℕ)
            × PlaysMissed (record { does = B.OnBus.does; looks = B.OnBus.looks }) (string_bytes self.old.ear.bus) self.old.ear.number
            self.old.clock missed self.old.on_bus self.new.on_bus text
            × Appends (W.contents writer.old) (W.contents writer.new) text) }
        ensures same { OnOk result ((self.new.ear ≡ self.old.ear) × (self.new.clock ≡ self.old.clock)
            × (self.new.is_timed ≡ self.old.is_timed)) }
    {
        if missed > 0 {
            self.finish(alloc, writer, errors)?;
            let now = self.clock.unwrap_or(0);
            self.on_bus.miss(alloc, missed, now, errors);
        }
        Ok(())
    }

    /// Has a frame heard, behind what is due by its time.
    fn play<W: Write, E: Write>(
        &mut self,
        alloc: Global,
        heard: &HeardFrame,
        writer: &mut W,
        errors: &mut E,
    ) -> Result<(), LogFault>
        requires { Unit {0} }
        ensures played { OnOk result ((text : List ℕ)
            × PlaysHeard (record { does = B.OnBus.does; looks = B.OnBus.looks }) (string_bytes self.old.ear.bus) self.old.ear.number
            (clock_before self.old.clock self.old.is_timed heard.now.time) heard.now self.old.on_bus self.new.on_bus text
            × Appends (W.contents writer.old) (W.contents writer.new) text) }
        ensures stands { OnOk result (StandsAt (Some heard.now) self.old.clock self.old.is_timed self.new.clock self.new.is_timed) }
        ensures same { self.new.ear ≡ self.old.ear }
    {
        if self.begins_anew(heard.time) {
            self.clock = None;
        }
        self.is_timed = self.is_timed || heard.time.is_some();
        let now = self.time_of(heard.time);
        self.write_until(alloc, now, writer, errors)?;
        self.on_bus.hear(alloc, heard, now, errors);
        Ok(())
    }

    /// Whether the run ends now, though there may be more lines.
    pub fn is_done(&self) -> bool {
        self.on_bus.is_done()
    }

    /// Writes what is due at the time of the last line.
    ///
    /// # Errors
    /// `Write`: a line could not be written.
    pub fn finish<W: Write, E: Write>(
        &mut self,
        alloc: Global,
        writer: &mut W,
        errors: &mut E,
    ) -> Result<(), LogFault>
        requires { Unit {0} }
        ensures played { OnOk result ((text : List ℕ)
            × PlaysOut (record { does = B.OnBus.does; looks = B.OnBus.looks }) (string_bytes self.old.ear.bus) self.old.ear.number
            self.old.clock self.old.on_bus self.new.on_bus text
            × Appends (W.contents writer.old) (W.contents writer.new) text) }
        ensures same { OnOk result ((self.new.ear ≡ self.old.ear) × (self.new.clock ≡ self.old.clock)
            × (self.new.is_timed ≡ self.old.is_timed)) }
    {
        match self.clock {
            Some(now) => self.write_until(alloc, now, writer, errors),
            None => Ok(()),
        }
    }

    /// Leaves the bus.
    pub fn close<E: Write>(&mut self, errors: &mut E)
        requires { Unit {0} }
    {
        let now = self.clock.unwrap_or(0);
        self.on_bus.close(now, errors);
    }

    /// How the run ended whose lines ended so, at the end of the input or not. Tells what became of who took part.
    pub fn ended<E: Write>(&self, errors: &mut E, end: Result<bool, LogFault>) -> LinesEnd {
        let ended = self.ear.ended(errors, end);
        self.on_bus.ended(errors, ended)
    }

    /// Whether all that was asked was granted.
    pub fn is_content(&self) -> bool {
        self.on_bus.is_content()
    }

    /// Whether the clock begins anew at a line with this time.
    fn begins_anew(&self, time: Option<Time>) -> bool
        ensures { result ≡ is_anew self.now.clock self.now.is_timed time }
    {
        match (time, self.clock) {
            (Some(time), Some(before)) => {
                !self.is_timed || time.micros().saturating_sub(before) > LONGEST_PAUSE
            }
            _ => false,
        }
    }

    /// The time at which a line is heard.
    fn time_of(&self, time: Option<Time>) -> u64
        ensures at { result ≡ heard_at self.now.clock time }
        ensures late { IfSome self.now.clock (λ before. before ≤ result) }
    {
        let before = self.clock.unwrap_or(0);
        match time {
            Some(time) => time.micros().max(before),
            None => before,
        }
    }

    /// Writes what is due up to a time, each frame when it is due.
    fn write_until<W: Write, E: Write>(
        &mut self,
        alloc: Global,
        until: u64,
        writer: &mut W,
        errors: &mut E,
    ) -> Result<(), LogFault>
        requires unit { Unit {0} }
        requires late { IfSome self.old.clock (λ before. before ≤ until) }
        ensures played { OnOk result ((text : List ℕ)
            × PlaysTo (record { does = B.OnBus.does; looks = B.OnBus.looks }) (string_bytes self.old.ear.bus) self.old.ear.number
            (unwrap_or self.old.clock until) until self.old.on_bus self.new.on_bus text
            × Appends (W.contents writer.old) (W.contents writer.new) text) }
        ensures clock { OnOk result (self.new.clock ≡ Some until) }
        ensures same { (self.new.ear ≡ self.old.ear) × (self.new.is_timed ≡ self.old.is_timed) }
    {
        let mut now = self.clock.unwrap_or(until);
        for _ in 0..u64::MAX {
            if self.go(alloc, now, writer, errors)? {
                continue;
            }
            let next = self.on_bus.next(now).max(now.saturating_add(1));
            if next > until {
                self.clock = Some(until);
                return Ok(());
            }
            now = next;
        }
        Err(LogFault::Write)
    }

    /// Writes the frame that goes at a time, if one does, and tells of it. Tells whether one went.
    fn go<W: Write, E: Write>(
        &mut self,
        alloc: Global,
        now: u64,
        writer: &mut W,
        errors: &mut E,
    ) -> Result<bool, LogFault>
        requires { Unit {0} }
        ensures went { IfOk result (λ went. (frame : Option FrameValue) × (is_some frame ≡ went)
            × IsAsking B.OnBus.does self.old.ear.number (record { at = now; frame = frame }) self.old.on_bus self.new.on_bus
            × Appends (W.contents writer.old) (W.contents writer.new) (went_text (string_bytes self.old.ear.bus) now frame)) }
        ensures same { (self.new.ear ≡ self.old.ear) × (self.new.clock ≡ self.old.clock) × (self.new.is_timed ≡ self.old.is_timed) }
    {
        let Some(frame) = self.on_bus.step(alloc, now, errors) else {
            return Ok(false);
        };
        let time = self.write(now, &frame, writer)?;
        let written = self.ear.written(frame, Some(time));
        self.on_bus.echo(alloc, &written, now, errors);
        Ok(true)
    }

    /// Writes a frame at a time.
    fn write<W: Write>(&self, now: u64, frame: &Frame, writer: &mut W) -> Result<Time, LogFault>
        ensures { IfOk result (λ time. (time ≡ now)
            × Appends (W.contents writer.old) (W.contents writer.new) (went_text (string_bytes self.now.ear.bus) now (Some frame.now))) }
    {
        let Some(time) = Time::from_micros(now) else {
            return Err(LogFault::Write);
        };
        match write_line(writer, time, self.ear.bus(), frame) {
            Ok(()) => Ok(time),
            Err(error) => Err(LogFault::of_write(error)),
        }
    }
}
