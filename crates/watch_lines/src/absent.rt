//! Whether it is told of any frame.

use crate::options::RunOptions;
use bus_watch::{BusShown, BusWatch, Buses, Selection, Watch};
use candump_line::{Line, Time};
use log_lines::{Absence, FrameFate, LogFault, Wanted, WantedBus};

/// Of what it is to be told.
pub(crate) fn wanted_of<'a>(options: &RunOptions<'a>) -> Wanted<'a> {
    Wanted {
        bus: match options.bus {
            BusShown::First => WantedBus::First,
            BusShown::Named(name) => WantedBus::Named(name),
            BusShown::Each => WantedBus::Each,
        },
        from: options.from,
        to: options.to,
    }
}

/// How many frames the watches have heard, as long as it was told of none.
pub(crate) fn frames_before(absence: &Absence, buses: &Buses) -> Option<u64> {
    if absence.is_open() {
        Some(frames_of(buses))
    } else {
        None
    }
}

/// How many frames the watches have heard.
#[inline(never)]
fn frames_of(buses: &Buses) -> u64 {
    buses.counts().frames
}

/// Takes a line that the watches have heard, before which they had heard so many frames.
///
/// # Errors
/// Memory was refused.
pub(crate) fn note_line(
    absence: &mut Absence,
    buses: &Buses,
    before: u64,
    said: &Line<'_>,
) -> Result<(), LogFault> {
    let is_heard = frames_of(buses) != before;
    absence.take(said, fate_of(buses, is_heard, said))
}

/// What a line is to whom the lines are read for, where it is a frame, which one of the watches has heard or not.
fn fate_of(buses: &Buses, is_heard: bool, said: &Line<'_>) -> FrameFate {
    match said {
        Line::Frame { bus: Some(bus), .. } if is_heard => match watch_of(buses, bus) {
            Some(watch) => fate_on(watch),
            None => FrameFate::OtherBus,
        },
        _ => FrameFate::OtherBus,
    }
}

/// What a frame is that this watch has heard.
fn fate_on(watch: &Watch) -> FrameFate {
    match watch.now() {
        Some(now) if is_left_out(&watch.selection(), now) => FrameFate::OtherTime(now),
        _ => FrameFate::Told,
    }
}

/// Whether it is not told of a time.
fn is_left_out(selection: &Selection, now: Time) -> bool {
    let is_before = match selection.from {
        Some(from) => now < from,
        None => false,
    };
    let is_behind = match selection.to {
        Some(to) => to < now,
        None => false,
    };
    is_before || is_behind
}

/// The watch that hears the frames of a bus.
fn watch_of<'a>(buses: &'a Buses, bus: &str) -> Option<&'a Watch> {
    let one = if buses.are_each() {
        buses.watches().iter().find(|one| is_of(one, bus))?
    } else {
        buses.watches().first()?
    };
    Some(&one.watch)
}

/// Whether a watch is of the bus of this name.
fn is_of(one: &BusWatch, bus: &str) -> bool {
    match &one.bus {
        Some(name) => name.as_str() == bus,
        None => false,
    }
}
