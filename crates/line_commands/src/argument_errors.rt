//! Which word of a command line is none that its option takes. What an option takes is read by the call that its words are read by.

use crate::decoding::form_of as decode_form_of;
use crate::local::local_zone;
use crate::watch_words::{
    address_of, bus_of, clock_of, form_of, keep_of, method_of, most_of, name_of, shows_unclaimed,
    silence_of, skips_bad, time_of, unit_of,
};
use crate::watching::WatchRequest;
use bus_watch::MOST_METHODS;
use log_lines::LocalZone;
use program_io::{ArgumentError, DecodeArguments, Failure, Fault, WatchArguments};
use std::alloc::Global;
use std::rt::{Env, Files};

/// What can be held.
const AN_ADDRESS: &str = "a number from 0 to 253";

/// How a unit is named.
const A_UNIT: &str = "16 hexadecimal digits, or a number from 0 to 253";

/// How a time is written.
const A_TIME: &str =
    "a time as the log has it (SECONDS or SECONDS.MICROSECONDS) or a date (YYYY-MM-DD, YYYY-MM-DD HH:MM:SS or YYYY-MM-DDTHH:MM:SS, a fraction behind it or none)";

/// What a clock is.
const A_CLOCK: &str =
    "utc, local, log, relative, or how far it is ahead of UTC (+02:00, UTC-05:00)";

/// Of how many NAMEs may be known.
const A_MOST: &str =
    "a number from 512 to 1000000 (254 addresses may be held where a report makes room, and half is to be free then)";

/// What a NAME is written with.
const A_NAME: &str = "16 hexadecimal digits";

/// Looks at what `watch` is asked, before any line is read.
///
/// # Errors
/// - `CommandLine`: a word is none that its option takes, or this machine has no zone; it is told which.
/// - `Memory`: memory was refused.
pub fn look_at_watch_words<H: Env + Files + AllocGlobal>(
    rt: &H,
    request: &WatchRequest<'_>,
) -> Result<(), Failure> {
    let local = local_zone(rt, request.words.clock)?;
    look_at_all(rt.alloc(), request, &local)
}

fn look_at_all(
    alloc: Global,
    request: &WatchRequest<'_>,
    local: &LocalZone,
) -> Result<(), Failure> {
    let words = &request.words;
    refuse(alloc, error_in_station(words))?;
    refuse(alloc, error_in_lines(words))?;
    refuse(alloc, error_in_times(words, local))?;
    refuse(alloc, error_in_filters(words))?;
    refuse(alloc, error_in_assumed(request.assumed))?;
    refuse(alloc, error_in_conversions(request.conversions))
}

/// Looks at the words behind `decode`, before anything is read.
///
/// # Errors
/// `CommandLine`: a word is none that its option takes; it is told which.
pub fn look_at_decode_words(alloc: Global, words: &DecodeArguments<'_>) -> Result<(), Failure> {
    let is_form = decode_form_of(*words).is_ok();
    refuse(
        alloc,
        error_of("format <text|json>", words.format, is_form, "text or json"),
    )
}

/// Refuses an argument that is wrong, where there is one.
fn refuse(alloc: Global, error: Option<ArgumentError<'_>>) -> Result<(), Failure> {
    match error {
        Some(error) => Err(Failure::told(Fault::CommandLine, error.to_string(alloc))),
        None => Ok(()),
    }
}

/// The error of a word that is not taken.
fn error_of<'a>(
    option: &'a str,
    word: Option<&'a str>,
    is_taken: bool,
    wanted: &'a str,
) -> Option<ArgumentError<'a>> {
    match word {
        Some(word) if !is_taken => Some(ArgumentError {
            option,
            word,
            wanted,
        }),
        _ => None,
    }
}

/// The error in what is said of the station and of its bus.
fn error_in_station<'a>(words: &WatchArguments<'a>) -> Option<ArgumentError<'a>> {
    let is_address = match words.address {
        Some(word) => address_of(word).is_ok(),
        None => true,
    };
    let is_name = match words.name {
        Some(word) => name_of(word).is_ok(),
        None => true,
    };
    let is_bus = bus_of(words.bus).is_ok();
    error_of("bus <BUS>", words.bus, is_bus, "the name of a bus")
        .or(error_of("address <N>", words.address, is_address, AN_ADDRESS))
        .or(error_of("name <NAME>", words.name, is_name, A_NAME))
}

/// The error in what is said of the lines, and of how they are answered.
fn error_in_lines<'a>(words: &WatchArguments<'a>) -> Option<ArgumentError<'a>> {
    let is_bad = skips_bad(words.bad).is_ok();
    let is_silence = silence_of(words.silence).is_ok();
    let is_form = form_of(words.format).is_ok();
    let is_unclaimed = shows_unclaimed(words.unclaimed).is_ok();
    error_of("bad <missed|skip>", words.bad, is_bad, "missed or skip")
        .or(error_of(
            "silence <MS>",
            words.silence,
            is_silence,
            "a number from 0 to 3600000",
        ))
        .or(error_of(
            "unclaimed <show|hide>",
            words.unclaimed,
            is_unclaimed,
            "show or hide",
        ))
        .or(error_of(
            "format <text|json|csv|html>",
            words.format,
            is_form,
            "text, json, csv or html",
        ))
}

/// The error in the times of which it is told, and in how times are told, with this zone of the machine.
fn error_in_times<'a>(words: &WatchArguments<'a>, local: &LocalZone) -> Option<ArgumentError<'a>> {
    let Ok(clock) = clock_of(words.clock, local) else {
        return error_of("clock <CLOCK>", words.clock, false, A_CLOCK);
    };
    let is_from = time_of(words.from, clock).is_ok();
    let is_to = time_of(words.to, clock).is_ok();
    error_of("from <TIME>", words.from, is_from, A_TIME).or(error_of(
        "to <TIME>",
        words.to,
        is_to,
        A_TIME,
    ))
}

/// The error in what is said of the unit of which it is told, and of how much is kept.
fn error_in_filters<'a>(words: &WatchArguments<'a>) -> Option<ArgumentError<'a>> {
    let is_unit = unit_of(words.unit).is_ok();
    let is_most = most_of(words.most).is_ok();
    let is_keep = keep_of(words.keep).is_ok();
    error_of("unit <NAME|N>", words.unit, is_unit, A_UNIT)
        .or(error_of("most <NAMES>", words.most, is_most, A_MOST))
        .or(error_of(
            "keep <RUNS>",
            words.keep,
            is_keep,
            "a number from 1 to 100000000",
        ))
}

/// The error in the units that are assumed.
fn error_in_assumed<'a>(assumed: &[&'a str]) -> Option<ArgumentError<'a>> {
    for word in assumed {
        if !is_assumption(word) {
            return error_of(
                "assume <ADDRESS=NAME>",
                Some(*word),
                false,
                "a number from 0 to 253, =, and 16 hexadecimal digits",
            );
        }
    }
    None
}

/// The error in the conversion methods.
fn error_in_conversions<'a>(conversions: &[&'a str]) -> Option<ArgumentError<'a>> {
    for (place, word) in conversions.iter().enumerate() {
        if place >= MOST_METHODS || method_of(word).is_err() {
            return error_of(
                "conversion <NAME=1|2|3>",
                Some(*word),
                false,
                "16 hexadecimal digits, =, and 1, 2 or 3, of up to 16 units",
            );
        }
    }
    None
}

/// Whether a word is an `ADDRESS=NAME`.
fn is_assumption(word: &str) -> bool {
    match word.split_once('=') {
        Some((address, name)) => address_of(address).is_ok() && name_of(name).is_ok(),
        None => false,
    }
}
