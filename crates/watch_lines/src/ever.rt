//! What units told at any time of the log: told by each entry that begins a run, and by how the runs ended.

use crate::units::{bus_at, unit_of};
use bus_watch::{BusWatch, Buses, EntryRun, Watch, WatchChange, Who};
use dm_messages::Kind;
use picture::EverInLog;
use std::alloc::AllocError;
use watch_reports::KINDS;

/// Tells a change of a bus, where it is an entry.
///
/// # Errors
/// Memory was refused.
pub(crate) fn tell_ever(
    ever: &mut EverInLog,
    watch: &Watch,
    bus: u16,
    change: &WatchChange,
) -> Result<(), AllocError> {
    match change {
        WatchChange::Entry { who, kind } => tell_entry(ever, watch, bus, who, *kind),
        _ => Ok(()),
    }
}

/// Tells an entry that begins a run, and until when the run before it was heard.
fn tell_entry(
    ever: &mut EverInLog,
    watch: &Watch,
    bus: u16,
    who: &Who,
    kind: Kind,
) -> Result<(), AllocError> {
    match watch.runs(*who, kind).split_last() {
        Some((run, before)) => {
            settle_run(ever, bus, who, kind, before.last());
            tell_run(ever, bus, who, kind, run)
        }
        None => Ok(()),
    }
}

fn tell_run(
    ever: &mut EverInLog,
    bus: u16,
    who: &Who,
    kind: Kind,
    run: &EntryRun,
) -> Result<(), AllocError> {
    let unit = unit_of(bus, *who);
    ever.hear(
        &unit,
        kind,
        run.shown.lamps,
        run.shown.codes.as_slice(),
        &run.first,
    )
}

/// Tells until when a run was heard, where there is one.
fn settle_run(ever: &mut EverInLog, bus: u16, who: &Who, kind: Kind, run: Option<&EntryRun>) {
    if let Some(run) = run {
        ever.hear_again(&unit_of(bus, *who), kind, &run.last);
    }
}

/// Tells until when the newest run of each unit was heard.
pub(crate) fn settle_ever(ever: &mut EverInLog, buses: &Buses) {
    for (place, one) in buses.watches().iter().enumerate() {
        settle_bus(ever, bus_at(place), one);
    }
}

fn settle_bus(ever: &mut EverInLog, bus: u16, one: &BusWatch) {
    for place in 0..one.watch.units() {
        if let Some(who) = one.watch.unit_at(place) {
            settle_unit(ever, &one.watch, bus, &who);
        }
    }
}

fn settle_unit(ever: &mut EverInLog, watch: &Watch, bus: u16, who: &Who) {
    for kind in KINDS {
        settle_run(ever, bus, who, kind, watch.runs(*who, kind).last());
    }
}
