ghost use Rattle.std.specs.Prelude.{◌≡◌, IfOk, false};
ghost use Rattle.clap.specs.declared.builder.command.Command.TheViews.{out-Command as fields_of};
ghost use Rattle.clap.specs.Simple.{shape_of};
ghost use Rattle.command_line.specs.CommandLine.{live_shape};

use crate::options::{CommandOption, Given, subcommand};
use clap::{ArgMatches, Command};
use program_io::LiveArguments;
use std::alloc::{AllocError, Global};

/// How a bus is joined.
fn pipes() -> &'static str {
    "\
On a bus:  candump -L -d can0 | j1939bench live VEHICLE | canplayer -t can0=can0

The units of the vehicle file claim their addresses on the bus, defend them or move, answer requests, send their DM1 each second while
a code is active or a lamp is on, and serve sessions. Its stations take no part: watch, beside it, shows what they would. Each frame
goes over the bus, and the units hear each other by it: leave out canplayer's -x.

The file of --control, which may be a named pipe, has a line for each order; I is a unit's place in the vehicle file, from 0:

  set I SPN FMI [N]      N codes become active; so heal, pend, unpend
  lamps I HHHH           lamps and flash codes
  dm1 I                  the unit begins a DM1
  counts I               its frames put, written, withdrawn, waiting
  leave I                it is taken off the bus
  fail I kind = \"drop\"   it does something wrong on purpose, as a table unit.fails has it

Answers go to standard error with the number of the order's line, as order 3: ok, and at the end of the input a line for each unit.
Status: 0 done; 1 a read or write failed, or memory ran out; 2 the command line or the vehicle; 3 done, but lines were bad, or none was
a frame.

With --times lines a log is read as fast as it goes: each unit hears each line at its time, and what it writes has the time at which it is due.

A unit of the vehicle file may have, beside name, address and kind:

  lamps = \"04FF\"                   # the lamps' byte and the flash codes' byte
  active = [\"110/0\", \"190/2/3\"]    # SPN/FMI, or SPN/FMI/COUNT; so previous and pending
  answers_violations = true         # claims again where another sends from its address, at most each 5 s
  [[unit.sends]]                    # a group that it sends again and again
  pgn = 61444                       # one that goes to all
  bytes = \"F07D84A61F00F07D\"        # 1 to 1785 bytes
  period = 100                      # 10 to 60000 ms
  priority = 3                      # 0 to 7 [6]
  checksum = { start = 60, length = 4 }   # where each frame bears the checksum of J1939-71
  [[unit.sends.fields]]             # bits of it that move from frame to frame, as a DBC file has them
  kind = \"counter\"                  # with least, most; ramp: with step too; toggle; values: with values = [1, 2]
  start = 56                        # start bit
  length = 4                        # 1 to 32 bits
  order = \"intel\"                   # or \"motorola\" [\"intel\"]
  least = 0
  most = 7
  [[unit.answers]]                  # a group that it sends where it is asked for it: pgn, bytes, priority
  [[unit.fails]]                    # what it does wrong on purpose: kind, after, count, time, .."
}

/// Its options.
const OPTIONS: [CommandOption<'static>; 9] = [
    CommandOption {
        name: "bus",
        value: "BUS",
        help: "The bus whose frames are heard, which the lines name [can0]",
        given: Given::Once,
    },
    CommandOption {
        name: "control",
        value: "FILE",
        help: "What is asked of the units while the bus runs",
        given: Given::Once,
    },
    CommandOption {
        name: "dm1",
        value: "active|always",
        help: "Whether DM1 is sent also while there is nothing to tell [active]",
        given: Given::Once,
    },
    CommandOption {
        name: "gap",
        value: "MS",
        help: "Milliseconds from a packet of a broadcast to the next, 10 to 200 [50]",
        given: Given::Once,
    },
    CommandOption {
        name: "settle",
        value: "MS",
        help: "Milliseconds from a claim to anything else, 0 to 1000 [250]",
        given: Given::Once,
    },
    CommandOption {
        name: "pace",
        value: "US",
        help: "Microseconds from a line to the next, 0 to 100000 [1000]",
        given: Given::Once,
    },
    CommandOption {
        name: "times",
        value: "clock|lines",
        help: "Whose times count; with those of the lines nothing waits [clock]",
        given: Given::Once,
    },
    CommandOption {
        name: "strict",
        value: "",
        help: "The first bad line ends the run",
        given: Given::Flag,
    },
    CommandOption {
        name: "file",
        value: "VEHICLE",
        help: "The vehicle file",
        given: Given::Alone,
    },
];

/// The subcommand `live`.
pub(crate) fn command<'a>(alloc: Global) -> Result<Command<'a>, AllocError>
    ensures shape { IfOk result (λ c. shape_of c ≡ live_shape) }
    ensures local { IfOk result (λ c. (fields_of c).has_globals ≡ false) }
{
    subcommand(
        alloc,
        "live",
        "Puts the units of a vehicle on a real bus, through two pipes",
        pipes(),
        &OPTIONS,
    )
}

/// The words behind `live`.
pub(crate) fn words<'a>(found: &ArgMatches<'a>) -> LiveArguments<'a> {
    LiveArguments {
        file: found.get_str("file"),
        bus: found.get_str("bus"),
        control: found.get_str("control"),
        dm1: found.get_str("dm1"),
        gap: found.get_str("gap"),
        settle: found.get_str("settle"),
        pace: found.get_str("pace"),
        times: found.get_str("times"),
        strict: found.get_flag("strict"),
    }
}
