ghost use Rattle.std.specs.Prelude.{◌≡◌, IfErr, IfOk, OnOk};
ghost use Rattle.std.specs.Option.{option_map};
ghost use Rattle.std.specs.Io.KnownBytes.{Appends};
ghost use Rattle.script_run.specs.Telling.{IsWire, wire_log};

use crate::bench::Bench;
use candump_line::{Time, write_line};
use program_io::{ArgumentError, Fault, LogArguments, is_bus};
use std::io::Write;

/// The longest period between two frames in microseconds.
const LONGEST_PERIOD: u64 = 1_000_000;

/// How the wire of a script is written.
#[derive(Clone, Copy)]
pub(crate) struct Wire<'a> {
    /// The bus that the lines name.
    bus: &'a str,
    /// How many microseconds stand between two frames, 1 to 1,000,000.
    period: u64,
}

impl<'a> Wire<'a> {
    /// What the words behind `log` ask for: the bus `can0` where none is given, and an 8-byte frame's time at 250 kbit/s, 540,
    /// where no period is.
    ///
    /// # Errors
    /// A word is none that its option takes.
    pub(crate) fn of(words: LogArguments<'a>) -> Result<Wire<'a>, ArgumentError<'a>>
        ensures { IfOk result (λ wire. IsWire (option_map (λ s. s.now) words.entry.bus)
            (option_map (λ s. s.now) words.entry.period) wire.bus.now wire.period) }
    {
        let bus = words.bus.unwrap_or("can0");
        if !is_bus(bus) {
            return Err(ArgumentError {
                option: "bus <BUS>",
                word: bus,
                wanted: "the name of a bus",
            });
        }
        let Some(word) = words.period else {
            return Ok(Wire { bus, period: 540 });
        };
        match word.parse::<u64>() {
            Ok(period) if period >= 1 && period <= LONGEST_PERIOD => Ok(Wire { bus, period }),
            _ => Err(ArgumentError {
                option: "period <US>",
                word,
                wanted: "a number from 1 to 1000000",
            }),
        }
    }

    /// Writes each frame of the wire: frame I, from 0, at I periods.
    pub(crate) fn write<W: Write>(self, bench: &Bench, writer: &mut W) -> Result<(), Fault>
        ensures fault { IfErr result (λ fault. fault ≡ Fault.Write) }
        ensures written { OnOk result (Appends (W.contents writer.old) (W.contents writer.new)
            (wire_log self.entry.bus.now self.entry.period bench.now.garage)) }
    {
        for index in 0..u32::MAX {
            let Some(frame) = bench.frame(index) else {
                break;
            };
            let Some(time) = Time::from_micros(u64::from(index).saturating_mul(self.period)) else {
                return Err(Fault::Write);
            };
            if write_line(writer, time, self.bus, &frame).is_err() {
                return Err(Fault::Write);
            }
        }
        Ok(())
    }
}
