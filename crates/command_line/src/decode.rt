ghost use Rattle.std.specs.Prelude.{◌≡◌, IfOk, false};
ghost use Rattle.clap.specs.declared.builder.command.Command.TheViews.{out-Command as fields_of};
ghost use Rattle.clap.specs.Simple.{shape_of};
ghost use Rattle.command_line.specs.CommandLine.{decode_shape};

use crate::options::{CommandOption, Given, subcommand};
use clap::{ArgMatches, Command};
use program_io::DecodeArguments;
use std::alloc::{AllocError, Global};

/// What a texts file holds.
fn input() -> &'static str {
    "\
Input: a line of candump -L, of plain candump, of cansend (18EAFFF9#00EE00), or a frame as this program answers it. Each line is
answered by one; no line is read with another in mind. An address stands in decimal, from 10 on with its hexadecimal digits
behind it: 249(F9).

With --join the packets of a message (SAE J1939-21, 5.10) are joined, those for all and those of a session between any two
addresses, and behind its last packet the message has a line of its own. A message is not joined where a packet is missing or out
of its order, where either side aborts it or another is announced in its place, and where a line behind its announcement is bad or
tells that frames were lost. Who holds an address, and how late a packet comes, is not looked at: watch does.

The file of --texts is a shop's own, comma-separated, with the line spn,fmi,text first; an empty fmi names the SPN alone, an empty
spn the FMI:

  spn,fmi,text
  110,,Engine coolant temperature
  ,0,above the normal range
  110,0,Engine coolant temperature above the normal range

The file of --signals says where the signals of a group stand in its bytes. Behind the line of a frame, or of a message that was
joined, stands what each says that is there, exactly: Speed=817.25 rpm, Fan=1 (on), Torque=not available, Level=error. A text of the
file for a value comes first. Else a signal without a sign is not available where its highest byte is FF, or its 2 to 7 bits are all
ones, and an error one below. A group is known by its number; of several messages of it the one with the frame's source counts.

Status: 0 done; 1 a read or write failed, or memory ran out; 2 the command line; 3 done, but lines were bad, or none was a frame of
SAE J1939 (what was there is told)."
}

/// Its options.
const OPTIONS: [CommandOption<'static>; 6] = [
    CommandOption {
        name: "format",
        value: "text|json",
        help: "How each line is answered [text]",
        given: Given::Once,
    },
    CommandOption {
        name: "units",
        value: "FILE",
        help: "Texts of units, as watch takes them",
        given: Given::Once,
    },
    CommandOption {
        name: "texts",
        value: "FILE",
        help: "Texts of SPNs and FMIs",
        given: Given::Once,
    },
    CommandOption {
        name: "signals",
        value: "FILE",
        help: "A DBC file, of whose signals the values are written",
        given: Given::Once,
    },
    CommandOption {
        name: "join",
        value: "",
        help: "Joins the packets of a message, which gets a line of its own",
        given: Given::Flag,
    },
    CommandOption {
        name: "file",
        value: "FILE",
        help: "The log to read; standard input where none is given, and for -",
        given: Given::Alone,
    },
];

/// The subcommand `decode`.
pub(crate) fn command<'a>(alloc: Global) -> Result<Command<'a>, AllocError>
    ensures shape { IfOk result (λ c. shape_of c ≡ decode_shape) }
    ensures local { IfOk result (λ c. (fields_of c).has_globals ≡ false) }
{
    subcommand(
        alloc,
        "decode",
        "Writes what each line of a log says, in words",
        input(),
        &OPTIONS,
    )
}

/// The words behind `decode`.
pub(crate) fn words<'a>(found: &ArgMatches<'a>) -> DecodeArguments<'a> {
    DecodeArguments {
        format: found.get_str("format"),
        units: found.get_str("units"),
        texts: found.get_str("texts"),
        signals: found.get_str("signals"),
        join: found.get_flag("join"),
        file: found.get_str("file"),
    }
}
