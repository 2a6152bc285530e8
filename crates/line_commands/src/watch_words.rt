//! What the words behind `watch` mean.

ghost use Rattle.std.specs.Prelude.{◌≡◌, ◌+◌, ◌*◌, ◌≤◌, ◌↔◌, ℕ, IfOk, IfSome, IsSomeAnd, Some, None, Ok, true, false, codes};
ghost use Rattle.can_frame.specs.declared.address.TheConstants.{GREATEST_ADDRESS};

use crate::shop::ShopTexts;
use bus_watch::{
    BusShown, Limits, MOST_METHODS, Selection, Silence, UnitMethod, UnitMethods, UnitShown,
    WatchSettings,
};
use can_frame::GREATEST_ADDRESS;
use candump_line::Time;
use dm_messages::ConversionMethod;
use log_lines::{ClockForm, LocalZone};
use name_field::Name;
use program_io::{Fault, WatchArguments, is_bus, path_of};
use std::alloc::Global;
use watch_lines::{Assumed, WatchForm, WatchOptions};

/// The longest silence that can be asked for in milliseconds: an hour.
const LONGEST_SILENCE: u64 = 3_600_000;

/// Of how many NAMEs is known at once where that is not said: of far more than a bus has in a day.
const MOST: u64 = 65_536;

/// How many runs are kept at once where that is not said: as many as ten units have that tell another thing each second, a day
/// long.
const KEEP: u64 = 1_000_000;

/// How the bus is watched, with these units that hold an address before the first line, and these conversion methods of units.
pub(crate) fn options_of<'a>(
    words: &'a WatchArguments<'_>,
    conversions: &[&str],
    local: &'a LocalZone,
    assumed: &'a [Assumed],
    shop: &'a ShopTexts,
) -> Result<WatchOptions<'a>, Fault> {
    let clock = clock_of(words.clock, local)?;
    Ok(WatchOptions {
        settings: settings_of(words, conversions, clock)?,
        bus: bus_of(words.bus)?,
        assumed,
        limits: limits_of(words)?,
        form: form_of(words.format)?,
        title: title_of(words.file),
        units: &shop.units,
        texts: &shop.texts,
        signals: shop.watched_signals(words.signals),
        since: shop.since(),
        clock,
        strict: words.strict,
    })
}

/// What is read: the path of a file, or words for standard input.
fn title_of(word: Option<&str>) -> &str {
    let path = path_of(word);
    match path {
        Some(path) => path,
        None => "standard input",
    }
}

/// What of the bus is shown, by this clock, and how its lines are read. The NAME that old command lines give is looked at, and says
/// nothing.
fn settings_of(
    words: &WatchArguments<'_>,
    conversions: &[&str],
    clock: Option<ClockForm<'_>>,
) -> Result<WatchSettings, Fault> {
    if let Some(word) = words.name {
        name_of(word)?;
    }
    Ok(WatchSettings {
        selection: Selection {
            address: shown_of(words.address)?,
            unclaimed: shows_unclaimed(words.unclaimed)?,
            unit: unit_of(words.unit)?,
            from: time_of(words.from, clock)?,
            to: time_of(words.to, clock)?,
            methods: methods_of(conversions)?,
        },
        skips_bad: skips_bad(words.bad)?,
        silence: silence_of(words.silence)?,
    })
}

/// How much is kept at once.
fn limits_of(words: &WatchArguments<'_>) -> Result<Limits, Fault> {
    Ok(Limits {
        most: most_of(words.most)? as usize,
        keep: keep_of(words.keep)?,
    })
}

/// Of how many NAMEs is known at once: more than twice as many as can hold an address, so that half is free where a watch has begun
/// anew with those that do.
pub(crate) fn most_of(word: Option<&str>) -> Result<u64, Fault>
    ensures default { word.entry ≡ None → result ≡ Ok 65536 }
    ensures range { IfOk result (λ most. (2 * (GREATEST_ADDRESS + 1) ≤ most) × (512 ≤ most) × (most ≤ 1000000)) }
{
    match word {
        Some(word) => number_of(word, 512, 1_000_000),
        None => Ok(MOST),
    }
}

/// How many runs are kept at once.
pub(crate) fn keep_of(word: Option<&str>) -> Result<u64, Fault>
    ensures default { word.entry ≡ None → result ≡ Ok 1000000 }
    ensures range { IfOk result (λ keep. (1 ≤ keep) × (keep ≤ 100000000)) }
{
    match word {
        Some(word) => number_of(word, 1, 100_000_000),
        None => Ok(KEEP),
    }
}

/// A number from the first to the last.
fn number_of(word: &str, first: u64, last: u64) -> Result<u64, Fault>
    ensures { IfOk result (λ number. (first ≤ number) × (number ≤ last)) }
{
    match word.parse::<u64>() {
        Ok(number) if number >= first && number <= last => Ok(number),
        Ok(_) | Err(_) => Err(Fault::CommandLine),
    }
}

/// The address whose sessions are shown; none: everybody's.
fn shown_of(word: Option<&str>) -> Result<Option<u8>, Fault>
    ensures default { word.entry ≡ None → result ≡ Ok None }
    ensures address { IfOk result (λ shown. IfSome shown (λ address. address ≤ GREATEST_ADDRESS)) }
{
    match word {
        Some(word) => Ok(Some(address_of(word)?)),
        None => Ok(None),
    }
}

/// Each `NAME=METHOD`: 1, 2 or 3, of up to 16 units.
pub(crate) fn methods_of(words: &[&str]) -> Result<UnitMethods, Fault> {
    let mut methods = [None; MOST_METHODS];
    for (place, word) in words.iter().enumerate() {
        match methods.get_mut(place) {
            Some(method) => *method = Some(method_of(word)?),
            None => return Err(Fault::CommandLine),
        }
    }
    Ok(methods)
}

/// A `NAME=METHOD`.
pub(crate) fn method_of(word: &str) -> Result<UnitMethod, Fault> {
    let Some((name, method)) = word.split_once('=') else {
        return Err(Fault::CommandLine);
    };
    let method = match method {
        "1" => ConversionMethod::First,
        "2" => ConversionMethod::Second,
        "3" => ConversionMethod::Third,
        _ => return Err(Fault::CommandLine),
    };
    Ok(UnitMethod {
        name: name_of(name)?,
        method,
    })
}

/// Each `ADDRESS=NAME`.
pub(crate) fn assumed_of(alloc: Global, words: &[&str]) -> Result<Vec<Assumed>, Fault> {
    let mut assumed = Vec::new(alloc);
    for word in words {
        let Some((address, name)) = word.split_once('=') else {
            return Err(Fault::CommandLine);
        };
        assumed.push(Assumed {
            address: address_of(address)?,
            name: name_of(name)?,
        })?;
    }
    Ok(assumed)
}

/// A NAME in sixteen hexadecimal digits.
pub(crate) fn name_of(word: &str) -> Result<Name, Fault> {
    Name::read_hex(word).map_err(|_| Fault::CommandLine)
}

/// An address that can be held.
pub(crate) fn address_of(word: &str) -> Result<u8, Fault>
    ensures { IfOk result (λ address. address ≤ GREATEST_ADDRESS) }
{
    match word.parse::<u64>() {
        Ok(number) if number <= u64::from(GREATEST_ADDRESS) => Ok(number as u8),
        Ok(_) | Err(_) => Err(Fault::CommandLine),
    }
}

/// The word that stands for each bus.
const EACH_BUS: &str = "all";

/// Which buses are watched: the first that a line names where that is not said.
pub(crate) fn bus_of(word: Option<&str>) -> Result<BusShown<'_>, Fault>
    ensures default { (result ≡ Ok BusShown.First) ↔ (word.entry ≡ None) }
    ensures each { (result ≡ Ok BusShown.Each) ↔ IsSomeAnd word.entry (λ w. w.now ≡ codes "all") }
{
    match word {
        None => Ok(BusShown::First),
        Some(word) if word == EACH_BUS => Ok(BusShown::Each),
        Some(word) if is_bus(word) => Ok(BusShown::Named(word)),
        Some(_) => Err(Fault::CommandLine),
    }
}

/// The unit of which alone it is told, by its NAME or by its address; none: of all.
pub(crate) fn unit_of(word: Option<&str>) -> Result<Option<UnitShown>, Fault>
    ensures default { word.entry ≡ None → result ≡ Ok None }
    ensures address { IfOk result
        (λ unit. IfSome unit (λ shown. (address : ℕ) → shown ≡ UnitShown.Address address → address ≤ GREATEST_ADDRESS)) }
{
    let Some(word) = word else {
        return Ok(None);
    };
    match name_of(word) {
        Ok(name) => Ok(Some(UnitShown::Name(name))),
        Err(_) => Ok(Some(UnitShown::Address(address_of(word)?))),
    }
}

/// A time as a log has it, whole seconds, or a date by this clock; none where it is not said.
pub(crate) fn time_of(
    word: Option<&str>,
    clock: Option<ClockForm<'_>>,
) -> Result<Option<Time>, Fault>
    ensures default { word.entry ≡ None → result ≡ Ok None }
{
    let Some(word) = word else {
        return Ok(None);
    };
    let clock = clock.unwrap_or(ClockForm::Utc);
    match seconds_of(word).or(clock.read_date(word)) {
        Some(time) => Ok(Some(time)),
        None => Err(Fault::CommandLine),
    }
}

/// The time of seconds, with a fraction or whole; none for a date, which `Time::read` takes for one at UTC.
fn seconds_of(word: &str) -> Option<Time> {
    if word.contains('-') {
        return None;
    }
    Time::read(word).or(whole_seconds(word))
}

/// The greatest number of seconds that a log tells.
const MOST_SECONDS: u64 = 9_999_999_999;

/// The time of so many seconds, in one to ten decimal digits.
fn whole_seconds(word: &str) -> Option<Time> {
    match word.parse::<u64>() {
        Ok(seconds) if seconds <= MOST_SECONDS => Time::from_micros(seconds * 1_000_000),
        Ok(_) | Err(_) => None,
    }
}

/// Whether bad lines are passed over.
pub(crate) fn skips_bad(word: Option<&str>) -> Result<bool, Fault>
    ensures default { word.entry ≡ None → result ≡ Ok false }
    ensures skip { (result ≡ Ok true) ↔ IsSomeAnd word.entry (λ w. w.now ≡ codes "skip") }
{
    match word {
        None | Some("missed") => Ok(false),
        Some("skip") => Ok(true),
        Some(_) => Err(Fault::CommandLine),
    }
}

/// Whether messages of addresses that nobody has claimed are shown.
pub(crate) fn shows_unclaimed(word: Option<&str>) -> Result<bool, Fault>
    ensures default { word.entry ≡ None → result ≡ Ok true }
    ensures hide { (result ≡ Ok false) ↔ IsSomeAnd word.entry (λ w. w.now ≡ codes "hide") }
{
    match word {
        None | Some("show") => Ok(true),
        Some("hide") => Ok(false),
        Some(_) => Err(Fault::CommandLine),
    }
}

/// How long a message may be silent: as the standard lets it where that is not said; 0: for ever.
pub(crate) fn silence_of(word: Option<&str>) -> Result<Silence, Fault>
    ensures default { word.entry ≡ None → result ≡ Ok Silence.Standard }
    ensures most { (micros : ℕ) → result ≡ Ok (Silence.UpTo micros) → micros ≤ 3600000000 }
{
    let Some(word) = word else {
        return Ok(Silence::Standard);
    };
    match word.parse::<u64>() {
        Ok(0) => Ok(Silence::Any),
        Ok(silence) if silence <= LONGEST_SILENCE => Ok(Silence::UpTo(silence * 1000)),
        Ok(_) | Err(_) => Err(Fault::CommandLine),
    }
}

/// How changes and report are written: for people where that is not said.
pub(crate) fn form_of(word: Option<&str>) -> Result<WatchForm, Fault>
    ensures default { word.entry ≡ None → result ≡ Ok WatchForm.Text }
    ensures json { (result ≡ Ok WatchForm.Json) ↔ IsSomeAnd word.entry (λ w. w.now ≡ codes "json") }
    ensures csv { (result ≡ Ok WatchForm.Csv) ↔ IsSomeAnd word.entry (λ w. w.now ≡ codes "csv") }
{
    match word {
        None | Some("text") => Ok(WatchForm::Text),
        Some("json") => Ok(WatchForm::Json),
        Some("csv") => Ok(WatchForm::Csv),
        Some("html") => Ok(WatchForm::Html),
        Some(_) => Err(Fault::CommandLine),
    }
}

/// How times are told, with this zone of the machine; none where that is not said.
pub(crate) fn clock_of<'a>(
    word: Option<&str>,
    local: &'a LocalZone,
) -> Result<Option<ClockForm<'a>>, Fault> {
    let Some(word) = word else {
        return Ok(None);
    };
    match ClockForm::of_word(word, local) {
        Some(clock) => Ok(Some(clock)),
        None => Err(Fault::CommandLine),
    }
}
