ghost use Rattle.std.specs.Prelude.{◌≡◌, ◌<◌, None, Err, true};

use log_lines::{LinesEnd, LogFault};
use program_io::{Failure, Fault};
use watch_lines::Watched;

/// How a run over lines ends the program.
pub(crate) fn outcome(ended: LinesEnd) -> Result<(), Fault>
    ensures bad { ended.fault ≡ None → 0 < ended.bad → result ≡ Err Fault.BadLines }
    ensures unread { ended.fault ≡ None → ended.is_unread ≡ true → result ≡ Err Fault.BadLines }
{
    match ended.fault {
        Some(LogFault::Read) => Err(Fault::Read),
        Some(LogFault::Write) => Err(Fault::Write),
        Some(LogFault::Memory) => Err(Fault::Memory),
        None if ended.bad > 0 || ended.is_unread => Err(Fault::BadLines),
        None => Ok(()),
    }
}

/// How such a run ends a subcommand.
pub(crate) fn end_of(ended: LinesEnd) -> Result<(), Failure> {
    outcome(ended)?;
    Ok(())
}

/// How a run that watches lines ends the program: that it was begun anew is told as bad lines are.
pub(crate) fn outcome_of(watched: Watched) -> Result<(), Fault>
    ensures bad { watched.ended.fault ≡ None → 0 < watched.ended.bad → result ≡ Err Fault.BadLines }
    ensures anew { watched.ended.fault ≡ None → watched.is_anew ≡ true → result ≡ Err Fault.BadLines }
{
    let Watched { mut ended, is_anew } = watched;
    ended.is_unread = ended.is_unread || is_anew;
    outcome(ended)
}

/// How such a run ends a subcommand.
pub(crate) fn end_of_watch(watched: Watched) -> Result<(), Failure> {
    outcome_of(watched)?;
    Ok(())
}
