ghost use Rattle.std.specs.Prelude.{◌≡◌, IfErr, IfOk, false};
ghost use Rattle.clap.specs.declared.builder.command.Command.TheViews.{out-Command as fields_of};
ghost use Rattle.clap.specs.Simple.{shape_of};
ghost use Rattle.command_line.specs.CommandLine.{HasCounts, watch_shape};

use crate::fault::LineFault;
use crate::options::{CommandOption, Given, subcommand};
use clap::{ArgMatches, Command};
use program_io::{Job, WatchArguments};
use std::alloc::{AllocError, Global};

/// What is written, and how it is to be read.
fn changes() -> &'static str {
    "\
Input: what candump -L writes, plain candump, log2long, a file of candump -l. Live: candump -L -d can0 | j1939bench watch

A line for each change: a unit that claims or loses an address, a DM1, DM2 or DM6 that differs from the one before it (lamps;
then SPN/FMI/COUNT; and where it went, if not to all), missed frames, an acknowledgment. At the end, also of an input that breaks off, a line for each NAME: its
address, how many DM1, DM2 and DM6 stand under it, the number of codes and the lamps of the newest DM1. As csv: a row for each
code of each run of equal entries, with the times of the first and the last, whether they are contested, and where they went.
An address stands in decimal, from 10 on with its hexadecimal digits behind it: 249(F9).

All is heard, whatever is shown: --address, --unclaimed, --unit, --from and --to leave out what they do not ask for, in the changes and in the
entries of the report. With --bus all each bus has units of its own, and a line says its bus.

As html: a page that a browser shows without a network: how it stands, each unit with its lamps and codes, when it was, each change.

The file of --units is a shop's own, comma-separated. Its first line names its columns: text, and one or more of name, function and
manufacturer; the row that says most exactly which units it is for counts:

  name,function,manufacturer,text
  ,0,,Engine
  1000000001419907,,,Engine of the first truck

Limits: on a real bus the last claim is not always the holder (an entry within 250 ms of a claim that displaced another NAME is
marked contested); frames lost without notice can mix two messages (a packet after --silence is withheld); where no claim of an address
was seen, its entries stand under the address alone (have the units claim: cansend can0 18EAFFFE#00EE00; or --assume).

Nothing of a bus lets memory grow without end: where as much is kept as --most and --keep allow, which no honest day comes near, all that was
heard so far is reported, and it is begun anew with the units that hold addresses. A run of several codes counts as many.

Status: 0 done; 1 a read or write failed, or memory ran out; 2 the command line; 3 done, but lines were bad,
or it is told of none (what was there is told, and what converts it), or more was heard than is kept at once."
}

/// Its options.
const OPTIONS: [CommandOption<'static>; 21] = [
    CommandOption {
        name: "bus",
        value: "BUS",
        help: "The bus to watch; all: each of them; the first in the input where none is given",
        given: Given::Once,
    },
    CommandOption {
        name: "address",
        value: "N",
        help: "Of the sessions those to this address, 0 to 253, are shown; all where none is given",
        given: Given::Once,
    },
    CommandOption {
        name: "name",
        value: "NAME",
        help: "16 hexadecimal digits; says nothing any more, kept for old command lines",
        given: Given::Once,
    },
    CommandOption {
        name: "assume",
        value: "ADDRESS=NAME",
        help: "A unit that holds an address before the first line; may be given again",
        given: Given::Often,
    },
    CommandOption {
        name: "conversion",
        value: "NAME=1|2|3",
        help: "By which conversion method a unit's older codes are read; for up to 16 units",
        given: Given::Often,
    },
    CommandOption {
        name: "bad",
        value: "missed|skip",
        help: "Whether a bad line is a frame that was missed [missed]",
        given: Given::Once,
    },
    CommandOption {
        name: "silence",
        value: "MS",
        help: "How long a message may be silent, 1 to 3600000 milliseconds [the standard's times]; 0: any",
        given: Given::Once,
    },
    CommandOption {
        name: "unclaimed",
        value: "show|hide",
        help: "Whether entries of addresses that nobody claimed are shown [show]",
        given: Given::Once,
    },
    CommandOption {
        name: "most",
        value: "NAMES",
        help: "Of how many NAMEs and unclaimed addresses is known at once, 512 to 1000000 [65536]",
        given: Given::Once,
    },
    CommandOption {
        name: "keep",
        value: "RUNS",
        help: "How many runs of equal entries are kept at once, 1 to 100000000 [1000000]",
        given: Given::Once,
    },
    CommandOption {
        name: "unit",
        value: "NAME|N",
        help: "Tells of one unit alone: of this NAME, or of whoever sends from address N, 0 to 253",
        given: Given::Once,
    },
    CommandOption {
        name: "from",
        value: "TIME",
        help: "Tells of what came at this time or later: seconds as in the log, or a date YYYY-MM-DD HH:MM:SS",
        given: Given::Once,
    },
    CommandOption {
        name: "to",
        value: "TIME",
        help: "Tells of what came at this time or before",
        given: Given::Once,
    },
    CommandOption {
        name: "format",
        value: "text|json|csv|html",
        help: "How changes and report are written [text]; csv, html: the report alone",
        given: Given::Once,
    },
    CommandOption {
        name: "units",
        value: "FILE",
        help: "Texts of units",
        given: Given::Once,
    },
    CommandOption {
        name: "texts",
        value: "FILE",
        help: "Texts of SPNs and FMIs, as decode takes them",
        given: Given::Once,
    },
    CommandOption {
        name: "signals",
        value: "FILE",
        help: "A DBC file, of whose signals the newest, least and greatest values are told",
        given: Given::Once,
    },
    CommandOption {
        name: "since",
        value: "FILE",
        help: "The JSON report of an earlier visit: which codes are new, gone, or came back since",
        given: Given::Once,
    },
    CommandOption {
        name: "clock",
        value: "CLOCK",
        help: "Tells times by log, utc, local, +02:00, relative [log; on the page utc where they count from 1970]",
        given: Given::Once,
    },
    CommandOption {
        name: "strict",
        value: "",
        help: "The first bad line ends the run",
        given: Given::Flag,
    },
    CommandOption {
        name: "file",
        value: "FILE",
        help: "The log to read; standard input where none is given, and for -",
        given: Given::Alone,
    },
];

/// The subcommand `watch`.
pub(crate) fn command<'a>(alloc: Global) -> Result<Command<'a>, AllocError>
    ensures shape { IfOk result (λ c. shape_of c ≡ watch_shape) }
    ensures local { IfOk result (λ c. (fields_of c).has_globals ≡ false) }
{
    subcommand(
        alloc,
        "watch",
        "Reads the log of a bus, or a live bus, and writes what its units tell",
        changes(),
        &OPTIONS,
    )
}

/// The job of the words behind `watch`.
pub(crate) fn job<'a>(alloc: Global, found: &ArgMatches<'a>) -> Result<Job<'a>, LineFault>
    ensures range { IfOk result HasCounts }
    ensures watching { result ≡ Ok Job.Script → ⊥ }
    ensures memory { IfErr result (λ fault. fault ≡ LineFault.Memory) }
{
    match (
        listed(alloc, found, "assume"),
        listed(alloc, found, "conversion"),
    ) {
        (Ok(assumed), Ok(conversions)) => Ok(Job::Watch {
            words: words(found),
            assumed,
            conversions,
        }),
        _ => Err(LineFault::Memory),
    }
}

/// The words behind `watch` that are given once.
fn words<'a>(found: &ArgMatches<'a>) -> WatchArguments<'a> {
    WatchArguments {
        bus: found.get_str("bus"),
        address: found.get_str("address"),
        name: found.get_str("name"),
        bad: found.get_str("bad"),
        silence: found.get_str("silence"),
        unclaimed: found.get_str("unclaimed"),
        most: found.get_str("most"),
        keep: found.get_str("keep"),
        unit: found.get_str("unit"),
        from: found.get_str("from"),
        to: found.get_str("to"),
        format: found.get_str("format"),
        units: found.get_str("units"),
        texts: found.get_str("texts"),
        signals: found.get_str("signals"),
        since: found.get_str("since"),
        clock: found.get_str("clock"),
        strict: found.get_flag("strict"),
        file: found.get_str("file"),
    }
}

/// The words of an option that may be given again.
pub(crate) fn listed<'a>(
    alloc: Global,
    found: &ArgMatches<'a>,
    option: &str,
) -> Result<Vec<&'a str>, AllocError> {
    let mut listed = Vec::new(alloc);
    if let Some(words) = found.get_strs(option) {
        listed.extend_from_slice(words)?;
    }
    Ok(listed)
}
