ghost use Rattle.std.specs.Prelude.{◌≡◌, IfOk, false};
ghost use Rattle.clap.specs.declared.builder.command.Command.TheViews.{out-Command as fields_of};
ghost use Rattle.clap.specs.Simple.{shape_of};
ghost use Rattle.command_line.specs.CommandLine.{check_shape, log_shape, script_shape};

use crate::options::{CommandOption, Given, subcommand};
use clap::{ArgMatches, Command};
use program_io::LogArguments;
use std::alloc::{AllocError, Global};

/// What a script's lines may be.
fn lines() -> &'static str {
    "\
Commands, one a line; an empty line, and one that begins with #, has no answer:

  garage NAME ADDRESS WINDOW GRANT LIMIT   the bus and its station; comes first, and once
  garage2 NAME ADDRESS WINDOW GRANT NAME ADDRESS WINDOW GRANT LIMIT
                                           the same with two stations, 0 and 1, of their own NAMEs
  join NAME ADDRESS KIND                   a unit; KIND is plain, guarded or flicker SPN FMI
  leave SEAT                               the unit is taken off the bus
  set SEAT SPN FMI [N]                     N codes become active
  heal SEAT SPN FMI [N]                    N codes become previously active
  pend SEAT SPN FMI [N]                    N codes become pending
  unpend SEAT SPN FMI [N]                  N codes are pending no more
  lamps SEAT HHHH                          lamps and flash codes
  think SEAT, turn SEAT                    the unit does its own work; ends a turn
  dm1 SEAT                                 the unit begins a DM1
  hear SEAT [N], read [N]                  the unit hears, the station reads
  carry [N], round N                       frames are carried; all hear, read and carry
  ask NAME|all WHAT                        WHAT is dm1, dm2, dm3, dm6, dm11, claim or a PGN
  command NAME ADDRESS                     the unit is commanded to another address
  shown NAME dm1|dm2|dm6, row NAME, stats  what the station shows and knows
  counts SEAT, frame I                     a seat's frames; a frame of the wire
  inject IIIIIIII [BB ..], injected        a frame from outside; how many there were
  report                                   a line for each NAME
  at S COMMAND                             the same of station S, where COMMAND is read, ask, command, shown,
                                           row, stats or report; without it they are of station 0"
}

/// What can be done with a log.
fn uses() -> &'static str {
    "\
The lines are those of candump -L. To drive a tool: j1939bench log < SCRIPT | canplayer vcan0=can0
To look at it: j1939bench log < SCRIPT > x.log; tshark -r x.log -d can.subdissector,j1939

Answers are not written. A line of the script that is answered bad line, no seat or refused is told on standard error with its
number, and the status is 3."
}

/// What is told.
fn reasons() -> &'static str {
    "\
No answers are written, but each line of the script that is not accepted, with its number and the reason:

  4: ADDRESS: '0x11' is no decimal number from 0 to 255

The status is 3 where there is such a line."
}

/// The subcommand `script`.
pub(crate) fn script_command<'a>(alloc: Global) -> Result<Command<'a>, AllocError>
    ensures shape { IfOk result (λ c. shape_of c ≡ script_shape) }
    ensures local { IfOk result (λ c. (fields_of c).has_globals ≡ false) }
{
    let about = "Reads commands from standard input and writes an answer line for each";
    subcommand(alloc, "script", about, lines(), &[])
}

/// The options of `log`.
const LOG_OPTIONS: [CommandOption<'static>; 2] = [
    CommandOption {
        name: "bus",
        value: "BUS",
        help: "The bus that the lines name [can0]",
        given: Given::Once,
    },
    CommandOption {
        name: "period",
        value: "US",
        help: "Microseconds from frame to frame, 1 to 1000000 [540]",
        given: Given::Once,
    },
];

/// The subcommand `log`.
pub(crate) fn log_command<'a>(alloc: Global) -> Result<Command<'a>, AllocError>
    ensures shape { IfOk result (λ c. shape_of c ≡ log_shape) }
    ensures local { IfOk result (λ c. (fields_of c).has_globals ≡ false) }
{
    let about = "Runs a script from standard input and writes its wire as a log";
    subcommand(alloc, "log", about, uses(), &LOG_OPTIONS)
}

/// The subcommand `check`.
pub(crate) fn check_command<'a>(alloc: Global) -> Result<Command<'a>, AllocError>
    ensures shape { IfOk result (λ c. shape_of c ≡ check_shape) }
    ensures local { IfOk result (λ c. (fields_of c).has_globals ≡ false) }
{
    let about = "Runs a script from standard input and tells each line that is not accepted";
    subcommand(alloc, "check", about, reasons(), &[])
}

/// The words behind `log`.
pub(crate) fn log_words<'a>(found: &ArgMatches<'a>) -> LogArguments<'a> {
    LogArguments {
        bus: found.get_str("bus"),
        period: found.get_str("period"),
    }
}
