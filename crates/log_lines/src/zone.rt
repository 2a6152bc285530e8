//! The zone of this machine, by `TZ` of the environment, or else by `/etc/localtime`.

use jiff::tz::{TimeZone, Tzif};
use std::alloc::Global;
use std::env::VarError;
use std::io::{ErrorKind, Read};
use std::rt::{Env, Files};
use std::{env, fs};

/// Where a machine has its zone, and where those are that `TZ` names.
const OF_MACHINE: &str = "/etc/localtime";

const NAMED: &str = "/usr/share/zoneinfo";

/// The most bytes that are read of a zone's file: its tables have a few kilobytes.
const MOST_BYTES: u64 = 1_048_576;

/// Why there is no zone of this machine.
#[derive(Clone, Copy, Debug, PartialEq, Eq)]
pub enum ZoneFault {
    /// What `TZ` names is none, or `/etc/localtime` has none.
    NoZone,
    /// Memory was refused.
    Memory,
}

/// The zone of a machine.
#[derive(Drop)]
pub struct LocalZone {
    rules: Rules,
}

#[derive(Drop)]
enum Rules {
    /// A POSIX rule, or UTC.
    Fixed(TimeZone<'static>),
    /// The transitions of the zone's file.
    Table(Tzif),
}

impl LocalZone {
    /// UTC.
    pub fn utc() -> LocalZone {
        LocalZone {
            rules: Rules::Fixed(TimeZone::UTC),
        }
    }

    /// The zone that `TZ` says: a name below `/usr/share/zoneinfo`, a path, or a rule of POSIX; UTC where that is empty. Where it is not
    /// set, the one of `/etc/localtime`, or UTC where that is not there.
    ///
    /// # Errors
    /// - `NoZone`: there is none.
    /// - `Memory`: memory was refused.
    pub fn read<R: Env + Files + AllocGlobal>(rt: &R) -> Result<LocalZone, ZoneFault> {
        match env::var(rt, "TZ") {
            Ok(text) => LocalZone::named(rt, text.as_str()),
            Err(VarError::NotPresent) => LocalZone::of_machine(rt),
            Err(VarError::NotUnicode) => Err(ZoneFault::NoZone),
            Err(VarError::OutOfMemory) => Err(ZoneFault::Memory),
        }
    }

    /// The zone that a text says.
    fn named<R: Files + AllocGlobal>(rt: &R, text: &str) -> Result<LocalZone, ZoneFault> {
        if text.is_empty() || text == "UTC" {
            return Ok(LocalZone::utc());
        }
        if let Ok(rule) = TimeZone::posix(text) {
            return Ok(LocalZone {
                rules: Rules::Fixed(rule),
            });
        }
        let name = text.strip_prefix(':').unwrap_or(text);
        if name.starts_with('/') {
            return LocalZone::of_file(rt, name);
        }
        match format!(in rt.alloc(); "{NAMED}/{name}") {
            Ok(path) => LocalZone::of_file(rt, path.as_str()),
            Err(_) => Err(ZoneFault::Memory),
        }
    }

    /// The zone of `/etc/localtime`.
    fn of_machine<R: Files + AllocGlobal>(rt: &R) -> Result<LocalZone, ZoneFault> {
        match fs::metadata(rt, OF_MACHINE) {
            Err(error) if error.kind() == ErrorKind::NotFound => Ok(LocalZone::utc()),
            _ => LocalZone::of_file(rt, OF_MACHINE),
        }
    }

    /// The zone of a file.
    fn of_file<R: Files + AllocGlobal>(rt: &R, path: &str) -> Result<LocalZone, ZoneFault> {
        let bytes = bytes_of(rt, path)?;
        match Tzif::parse(rt.alloc(), None, bytes.as_slice()) {
            Ok(table) => Ok(LocalZone {
                rules: Rules::Table(table),
            }),
            Err(jiff::Error::OutOfMemory) => Err(ZoneFault::Memory),
            Err(_) => Err(ZoneFault::NoZone),
        }
    }

    /// Its rules, lent.
    pub fn zone(&self) -> TimeZone<'_> {
        match &self.rules {
            Rules::Fixed(zone) => *zone,
            Rules::Table(table) => TimeZone::tzif(table),
        }
    }
}

/// What a regular file has.
fn bytes_of<R: Files + AllocGlobal>(rt: &R, path: &str) -> Result<Vec<u8>, ZoneFault> {
    match fs::metadata(rt, path) {
        Ok(metadata) if metadata.is_file() => {}
        _ => return Err(ZoneFault::NoZone),
    }
    let Ok(file) = fs::open(rt, path) else {
        return Err(ZoneFault::NoZone);
    };
    let mut bytes = Vec::new(rt.alloc());
    match file.take(MOST_BYTES).read_to_end(&mut bytes) {
        Ok(_) => Ok(bytes),
        Err(error) if error.kind() == ErrorKind::OutOfMemory => Err(ZoneFault::Memory),
        Err(_) => Err(ZoneFault::NoZone),
    }
}
