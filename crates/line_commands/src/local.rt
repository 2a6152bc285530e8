use log_lines::{LocalZone, ZoneFault};
use program_io::{ArgumentError, Failure, Fault};
use std::rt::{Env, Files};

/// The zone of this machine, where its clock is asked for; else UTC stands for it.
///
/// # Errors
/// - `CommandLine`: this machine has none, which is told.
/// - `Memory`: memory was refused.
pub(crate) fn local_zone<R: Env + Files + AllocGlobal>(
    rt: &R,
    clock: Option<&str>,
) -> Result<LocalZone, Failure> {
    match clock {
        Some("local") => read_zone(rt),
        _ => Ok(LocalZone::utc()),
    }
}

fn read_zone<R: Env + Files + AllocGlobal>(rt: &R) -> Result<LocalZone, Failure> {
    match LocalZone::read(rt) {
        Ok(zone) => Ok(zone),
        Err(ZoneFault::NoZone) => Err(Failure::told(
            Fault::CommandLine,
            NO_ZONE.to_string(rt.alloc()),
        )),
        Err(ZoneFault::Memory) => Err(Failure::from(Fault::Memory)),
    }
}

/// What is told where there is none.
const NO_ZONE: ArgumentError<'static> = ArgumentError {
    option: "clock <CLOCK>",
    word: "local",
    wanted: "a zone of this machine: what TZ says, or /etc/localtime where it is not set, is none",
};
