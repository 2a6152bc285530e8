//! `threads`: a vehicle's units, each in a thread of its own, while its stations read.

ghost use Rattle.std.specs.Prelude.{◌≡◌, ◌⊎◌, ◌<◌, length, vec_len, IfErr, IfOk, IfSome, OnOk};
ghost use Rattle.std.specs.Io.KnownBytes.{Appends, Keeps};
ghost use Rattle.program_io.specs.Fault.{IsOfInput};
ghost use Rattle.program_io.specs.Input.{input_limit};
ghost use Rattle.garage.specs.Opening.{new_garage, setting_value};
ghost use Rattle.report.specs.Text.{report_at};
ghost use Rattle.unit_threads.specs.Opened.{second_wanted, settings_wanted};
ghost use Rattle.unit_threads.specs.Written.{HaveRun, IsRunTold, IsSpelled, IsVehicleTold, tally_text, unit_end_text, ends_text, outcome_text, end_reason_text, reports_text, run_text};

use crate::compare::counts_of;
use crate::ended::{EndReason, Ended};
use crate::running::{Gate, Ran, run};
use garage::{Garage, GarageError, Setting};
use journal::Tally;
use program_io::{Failure, Fault, read_text};
use std::alloc::Global;
use std::io;
use std::io::{Read, Write};
use std::sync::Wait;
use std::thread::Threads;
use unit_trait::{Simulated, Unit};
use vehicle::{StationSettings, StationTable, Vehicle, VehicleFault, read_vehicle};

/// More units than this a run cannot number. No input of the greatest size has so many.
const MOST_UNITS: usize = 4_294_967_295;

/// Before its turns no unit waits.
struct Open;

impl Gate for Open {
    fn before_turn<R: Wait>(&self, _rt: &R, _unit: u32, _turn: u32) {}
}

/// Reads a vehicle and runs each of its units in a thread of its own, while the stations read in this one. Then it writes
/// how each unit ended, a line each, and where that is wanted the report of each station.
///
/// The whole input is read first. It returns only if the threads do. At the end the writer is flushed; one that holds what it is
/// given spares calls.
///
/// # Errors
/// - `Read`: a read failed.
/// - `InputTooLong`, `NotUtf8`, `Vehicle`: the input is refused, looked at in this order; nothing was written. Of a vehicle it is
///   told at which line and key.
/// - `Write`: a line could not be written.
/// - `Memory`: memory was refused outside of a unit's thread and of the stations' readings.
pub fn threads<R: Threads + Wait + Sync, I: Read, W: Write>(
    rt: &R,
    alloc: Global,
    turns: u32,
    reads: u32,
    report: bool,
    reader: &mut I,
    writer: &mut W,
) -> Result<(), Failure>
    ensures unanswered { IfErr result (λ failure. IsOfInput failure.fault → writer.new ≡ writer.old) }
    ensures too_long { IfErr result
        (λ failure. failure.fault ≡ Fault.InputTooLong → IfSome (I.remaining reader.old) (λ bytes. input_limit < length bytes)) }
    ensures told { OnOk result (IfSome (I.remaining reader.old) (λ input. IsVehicleTold turns report input
        (W.contents writer.old) (W.contents writer.new))) }
{
    let vehicle = vehicle_of(alloc, reader)?;
    match run_vehicle(rt, alloc, &vehicle, turns, reads, report, writer) {
        Ok(()) => Ok(()),
        Err(fault) => Err(Failure::from(fault)),
    }
}

/// Runs a vehicle, and writes how it ended.
#[tactic(auto, using(crate::proofs::Writing::run_told))]
fn run_vehicle<R: Threads + Wait + Sync, W: Write>(
    rt: &R,
    alloc: Global,
    vehicle: &Vehicle,
    turns: u32,
    reads: u32,
    report: bool,
    writer: &mut W,
) -> Result<(), Fault>
    requires few { vec_len vehicle.now.units < 4294967296 }
    ensures unanswered { IfErr result (λ fault. IsOfInput fault → writer.new ≡ writer.old) }
    ensures not_long { IfErr result (λ fault. (fault ≡ Fault.Write) ⊎ (fault ≡ Fault.Memory) ⊎ (fault ≡ Fault.Vehicle)) }
    ensures told { OnOk result (IsRunTold turns vehicle.now report (W.contents writer.old) (W.contents writer.new)) }
{
    let (garage, ran) = run_units(rt, alloc, vehicle, turns, reads)?;
    write_run(alloc, writer, &garage, ran.ended.as_slice(), report)
}

/// The vehicle that an input describes.
fn vehicle_of<I: Read>(alloc: Global, reader: &mut I) -> Result<Vehicle, Failure>
    ensures few { IfOk result (λ vehicle. vec_len vehicle.units < 4294967296) }
    ensures spelled { IfOk result (λ vehicle. IfSome (I.remaining reader.old) (λ input. IsSpelled input vehicle)) }
    ensures too_long { IfErr result
        (λ failure. failure.fault ≡ Fault.InputTooLong → IfSome (I.remaining reader.old) (λ bytes. input_limit < length bytes)) }
{
    let text = match read_text(alloc, reader) {
        Ok(text) => text,
        Err(fault) => return Err(Failure::from(fault)),
    };
    let vehicle = match read_vehicle(alloc, text.as_str()) {
        Ok(vehicle) => vehicle,
        Err(VehicleFault::Refused(words)) => return Err(Failure::told(Fault::Vehicle, Ok(words))),
        Err(VehicleFault::Memory) => return Err(Failure::from(Fault::Memory)),
    };
    if vehicle.units.len() > MOST_UNITS {
        return Err(Failure::from(Fault::Vehicle));
    }
    Ok(vehicle)
}

/// The garage of a vehicle's station, and of a second one where there is one.
fn garage_of(
    alloc: Global,
    station: StationTable,
    second: Option<StationSettings>,
) -> Result<Garage, Fault>
    ensures opened { IfOk result (λ garage. garage ≡ new_garage (settings_wanted station second)) }
    ensures faults { IfErr result (λ fault. (fault ≡ Fault.Memory) ⊎ (fault ≡ Fault.Vehicle)) }
{
    let StationTable {
        name,
        address,
        window,
        grant,
        limit,
    } = station;
    let opened = match second {
        None => Garage::new(alloc, name, address, window, grant, limit),
        Some(second) => {
            let first = Setting {
                name,
                address,
                window,
                grant,
            };
            Garage::with_two(alloc, first, setting_of(second), limit)
        }
    };
    match opened {
        Ok(garage) => Ok(garage),
        Err(GarageError::OutOfMemory) => Err(Fault::Memory),
        Err(_) => Err(Fault::Vehicle),
    }
}

/// How a second station is opened.
fn setting_of(second: StationSettings) -> Setting
    ensures { setting_value result ≡ second_wanted second }
{
    let StationSettings {
        name,
        address,
        window,
        grant,
    } = second;
    Setting {
        name,
        address,
        window,
        grant,
    }
}

/// Runs the units of a vehicle in its garage.
fn run_units<R: Threads + Wait + Sync>(
    rt: &R,
    alloc: Global,
    vehicle: &Vehicle,
    turns: u32,
    reads: u32,
) -> Result<(Garage, Ran), Fault>
    ensures faults { IfErr result (λ fault. (fault ≡ Fault.Memory) ⊎ (fault ≡ Fault.Vehicle)) }
    ensures ran { IfOk result (λ r. HaveRun turns (vec_len vehicle.now.units)
        (new_garage (settings_wanted vehicle.now.station vehicle.now.second)) r.0 r.1.ended.items) }
{
    let mut units: Vec<(Box<dyn Unit>, u8)> = Vec::new(alloc);
    for line in vehicle.units.as_slice() {
        let unit: Box<dyn Unit> = Box::new(alloc, Simulated::new(alloc, line.name, line.kind))?;
        units.push((unit, line.address))?;
    }
    let garage = garage_of(alloc, vehicle.station, vehicle.second)?;
    let (garage, ran) = run(rt, alloc, garage, units, turns, reads, &Open);
    match ran {
        Ok(ran) => {
            // (whoever asks this learns that the garage is lawful)
            let _ = garage.events();
            Ok((garage, ran))
        }
        Err(_) => Err(Fault::Memory),
    }
}

/// Writes how each unit ended, and where that is wanted the report of each station.
fn write_run<W: Write>(
    alloc: Global,
    writer: &mut W,
    garage: &Garage,
    ended: &[Ended],
    report: bool,
) -> Result<(), Fault>
    ensures fault { IfErr result (λ fault. (fault ≡ Fault.Write) ⊎ (fault ≡ Fault.Memory)) }
    ensures written { OnOk result (Appends (W.contents writer.old) (W.contents writer.new) (run_text garage.now ended.now report)) }
{
    write_ends(writer, garage, ended)?;
    if report {
        write_reports(alloc, writer, garage)?;
    }
    flush(writer)
}

/// Writes a line for the end of each unit.
#[tactic(auto, using(crate::proofs::Writing::all_ends, crate::proofs::Writing::nothing_yet))]
fn write_ends<W: Write>(writer: &mut W, garage: &Garage, ended: &[Ended]) -> Result<(), Fault>
    ensures fault { IfErr result (λ fault. fault ≡ Fault.Write) }
    ensures written { OnOk result (Appends (W.contents writer.old) (W.contents writer.new) (ends_text garage.now 0 ended.now)) }
{
    for (unit, end) in ended.iter().enumerate() {
        if write_end(writer, garage, unit, end).is_err() {
            return Err(Fault::Write);
        }
    }
    Ok(())
}

fn write_end<W: Write>(writer: &mut W, garage: &Garage, unit: usize, end: &Ended) -> io::Result<()>
    ensures { OnOk result (Appends (W.contents writer.old) (W.contents writer.new) (unit_end_text garage.now unit end.now)) }
{
    write!(writer, "unit {unit} ")?;
    match end.refusal {
        Some(reason) => write_reason(writer, reason),
        None => write_counts(writer, counts_of(garage, end.seat.unwrap_or(0))),
    }
}

fn write_reason<W: Write>(writer: &mut W, reason: EndReason) -> io::Result<()>
    ensures { OnOk result (Appends (W.contents writer.old) (W.contents writer.new) (end_reason_text reason)) }
{
    let number = reason.number();
    writeln!(writer, "refused {number} {reason}")
}

fn write_counts<W: Write>(writer: &mut W, counts: Tally) -> io::Result<()>
    ensures { OnOk result (Appends (W.contents writer.old) (W.contents writer.new) (tally_text counts)) }
{
    let Tally {
        joined,
        turned,
        left,
        events: _,
    } = counts;
    writeln!(writer, "joined {joined} turned {turned} left {left}")
}

/// Writes what each station knows, in their order.
#[tactic(auto, using(crate::proofs::Writing::report_more, crate::proofs::Writing::nothing_yet))]
fn write_reports<W: Write>(alloc: Global, writer: &mut W, garage: &Garage) -> Result<(), Fault>
    ensures fault { IfErr result (λ fault. (fault ≡ Fault.Write) ⊎ (fault ≡ Fault.Memory)) }
    ensures written { OnOk result (Appends (W.contents writer.old) (W.contents writer.new)
        (reports_text garage.now (length garage.now.settings.stations))) }
{
    for station in 0..garage.stations() {
        write_report(alloc, writer, garage, station)?;
    }
    Ok(())
}

/// Writes what a station knows.
fn write_report<W: Write>(
    alloc: Global,
    writer: &mut W,
    garage: &Garage,
    station: u32,
) -> Result<(), Fault>
    requires { station < length garage.now.settings.stations }
    ensures fault { IfErr result (λ fault. (fault ≡ Fault.Write) ⊎ (fault ≡ Fault.Memory)) }
    ensures written { OnOk result (Appends (W.contents writer.old) (W.contents writer.new) (report_at garage.now station)) }
{
    let Ok(snapshot) = garage.snapshot_at(alloc, station) else {
        return Err(Fault::Memory);
    };
    match report::write(&snapshot, writer) {
        Ok(()) => Ok(()),
        Err(_) => Err(Fault::Write),
    }
}

/// Has the writer write all that it holds.
fn flush<W: Write>(writer: &mut W) -> Result<(), Fault>
    ensures fault { IfErr result (λ fault. fault ≡ Fault.Write) }
    ensures same { OnOk result (Keeps (W.contents writer.old) (W.contents writer.new)) }
{
    match writer.flush() {
        Ok(()) => Ok(()),
        Err(_) => Err(Fault::Write),
    }
}
