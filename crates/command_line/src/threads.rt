ghost use Rattle.std.specs.Prelude.{◌≡◌, IfErr, IfOk, IfSome, false};
ghost use Rattle.clap.specs.declared.builder.command.Command.TheViews.{out-Command as fields_of};
ghost use Rattle.clap.specs.Simple.{shape_of};
ghost use Rattle.command_line.specs.CommandLine.{IsCount, IsThreads, threads_shape};

use crate::fault::LineFault;
use crate::options::{CommandOption, Given, subcommand};
use clap::{ArgMatches, Command};
use program_io::Job;
use std::alloc::{AllocError, Global};

/// The most turns and the most readings that can be asked for.
const MOST: u32 = 100_000;

/// A vehicle, as it stands in a file.
pub(crate) fn vehicle() -> &'static str {
    "\
A vehicle file:

  [station]                     # the diagnostic station
  name = \"0000000000000001\"     # its NAME, 16 hexadecimal digits
  address = 249                 # the address that it claims, 0 to 253
  window = 64                   # unread frames before it misses one, 1 to 4096
  grant = 16                    # packets asked for at once, 1 to 255
  limit = 100000                # events that the journal may hold, 1 to 16777216

  [second]                      # a second station with a NAME of its own, if there is one
  name = \"0000000000000002\"     # its keys as above; the limit is that of both
  address = 250
  window = 64
  grant = 16

  [[unit]]                      # a control unit, as many as there are
  name = \"00000000000000A0\"
  address = 0
  kind = \"plain\"                # clears, obeys and tells; a guarded one does none of these

  [[unit]]
  name = \"00000000000000B0\"
  address = 1
  kind = \"flicker\"              # plain, but for a code that comes and goes as it works
  spn = 100                     # 0 to 524287
  fmi = 1                       # 0 to 31"
}

/// Its options.
const OPTIONS: [CommandOption<'static>; 3] = [
    CommandOption {
        name: "turns",
        value: "N",
        help: "How many turns each unit has, 1 to 100000",
        given: Given::Always,
    },
    CommandOption {
        name: "reads",
        value: "M",
        help: "How often the station reads, 1 to 100000",
        given: Given::Always,
    },
    CommandOption {
        name: "report",
        value: "",
        help: "Writes the station's report after the units' lines",
        given: Given::Flag,
    },
];

/// The subcommand `threads`.
pub(crate) fn command<'a>(alloc: Global) -> Result<Command<'a>, AllocError>
    ensures shape { IfOk result (λ c. shape_of c ≡ threads_shape) }
    ensures local { IfOk result (λ c. (fields_of c).has_globals ≡ false) }
{
    let about =
        "Reads a vehicle from standard input and runs each of its units in a thread of its own";
    subcommand(alloc, "threads", about, vehicle(), &OPTIONS)
}

/// The job of the words behind `threads`.
pub(crate) fn job<'a>(found: &ArgMatches<'_>) -> Result<Job<'a>, LineFault>
    ensures range { IfOk result IsThreads }
    ensures refused { IfErr result (λ fault. fault ≡ LineFault.Refused None) }
{
    let (Some(turns), Some(reads)) = (count(found.get_str("turns")), count(found.get_str("reads")))
    else {
        return Err(LineFault::Refused(None));
    };
    Ok(Job::Threads {
        turns,
        reads,
        report: found.get_flag("report"),
    })
}

/// The number that a word spells, 1 to 100,000.
fn count(word: Option<&str>) -> Option<u32>
    ensures { IfSome result IsCount }
{
    match word?.parse::<u32>() {
        Ok(number) if number >= 1 && number <= MOST => Some(number),
        _ => None,
    }
}
