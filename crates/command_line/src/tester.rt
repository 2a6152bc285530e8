ghost use Rattle.std.specs.Prelude.{◌≡◌, IfErr, IfOk, false};
ghost use Rattle.clap.specs.declared.builder.command.Command.TheViews.{out-Command as fields_of};
ghost use Rattle.clap.specs.Simple.{shape_of};
ghost use Rattle.command_line.specs.CommandLine.{HasCounts, tester_shape};

use crate::fault::LineFault;
use crate::options::{CommandOption, Given, subcommand};
use crate::watch::listed;
use clap::{ArgMatches, Command};
use program_io::{Job, TesterArguments};
use std::alloc::{AllocError, Global};

/// How a bus is joined, and what may be asked.
fn pipes() -> &'static str {
    "\
On a bus:  candump -L -d can0 | j1939bench tester --name N [ORDER ..] | canplayer -t can0=can0

The station claims its address, defends it or moves, answers requests, and serves sessions. Of its own accord it sends a request for
claims, once at the start and behind frames that were not read; all else is for its orders, one at a time:

  ask NAME|ADDRESS|all dm1|dm2|dm6|claim   asks up to three times, each for 1,250 ms
  clear NAME|ADDRESS|all dm3|dm11          clears once; again only where the unit is busy
  command NAME ADDRESS                     has a unit move to an address
  wait MS                                  waits so many milliseconds
  end                                      ends the run

NAME has 16 hexadecimal digits; ADDRESS, 0 to 253 or 0xHH, stands for the NAME that holds it: to an address that nobody is known to hold
nothing is sent. With orders as words and no --control the run ends behind the last; else with its input, or Ctrl-C.

Each order has one verdict, a line on standard error:

  order 1 ask 0 dm2: answered after 0.012 s, at 0, 1 try: amber (04FF); 94/1/1

answered, with what was told; positive, or cleared where a list that began behind the answer has no code; refused; busy; obeyed; done;
no such unit; unread; silent; in doubt: nobody can tell whether it was done; lost address; withheld: it wants --yes; cut off.

Status: 0 each order got what it asked for; 1 a read or write failed, or memory ran out; 2 the command line; 3 done, but lines were bad,
none was a frame, or the report was begun anew; 4 an order did not get what it asked for.

With --times lines a log is read as fast as it goes, and what is written has the time at which it is due."
}

/// Its options.
const OPTIONS: [CommandOption<'static>; 17] = [
    CommandOption {
        name: "name",
        value: "NAME",
        help: "The NAME of the station, 16 hexadecimal digits",
        given: Given::Once,
    },
    CommandOption {
        name: "address",
        value: "ADDRESS",
        help: "The address that it wants, 0 to 253 [249]",
        given: Given::Once,
    },
    CommandOption {
        name: "grant",
        value: "N",
        help: "How many packets it grants at once, 1 to 255 [255]",
        given: Given::Once,
    },
    CommandOption {
        name: "bus",
        value: "BUS",
        help: "The bus whose frames are heard, which the lines name [can0]",
        given: Given::Once,
    },
    CommandOption {
        name: "control",
        value: "FILE",
        help: "Further orders, a line each, while the bus runs",
        given: Given::Once,
    },
    CommandOption {
        name: "gap",
        value: "MS",
        help: "Milliseconds from a packet to the next, 10 to 200 [50]",
        given: Given::Once,
    },
    CommandOption {
        name: "settle",
        value: "MS",
        help: "Milliseconds from a claim to anything else, 0 to 1000 [250]",
        given: Given::Once,
    },
    CommandOption {
        name: "pace",
        value: "US",
        help: "Microseconds from a line to the next, 0 to 100000 [1000]",
        given: Given::Once,
    },
    CommandOption {
        name: "times",
        value: "clock|lines",
        help: "Whose times count; with those of the lines nothing waits [clock]",
        given: Given::Once,
    },
    CommandOption {
        name: "format",
        value: "FORM",
        help: "How it is told what becomes of orders: text or json; of the report also csv or html [text]",
        given: Given::Once,
    },
    CommandOption {
        name: "report",
        value: "FILE",
        help: "The file of the report of what the bus said, by its ending .txt, .json, .csv or .html, else as --format has it",
        given: Given::Once,
    },
    CommandOption {
        name: "every",
        value: "S",
        help: "Seconds from a report to the next, 1 to 86400; else it is written at the end",
        given: Given::Once,
    },
    CommandOption {
        name: "most",
        value: "N",
        help: "Of how many NAMEs is known at once, 512 to 1000000 [65536]",
        given: Given::Once,
    },
    CommandOption {
        name: "keep",
        value: "N",
        help: "How many runs of equal entries the report keeps at once, 1 to 100000000 [1000000]",
        given: Given::Once,
    },
    CommandOption {
        name: "strict",
        value: "",
        help: "The first bad line ends the run",
        given: Given::Flag,
    },
    CommandOption {
        name: "yes",
        value: "",
        help: "Clears all units where an order says so, and commands one to an address that is held",
        given: Given::Flag,
    },
    CommandOption {
        name: "order",
        value: "ORDER",
        help: "The words of orders, one behind the other",
        given: Given::Rest,
    },
];

/// The subcommand `tester`.
pub(crate) fn command<'a>(alloc: Global) -> Result<Command<'a>, AllocError>
    ensures shape { IfOk result (λ c. shape_of c ≡ tester_shape) }
    ensures local { IfOk result (λ c. (fields_of c).has_globals ≡ false) }
{
    subcommand(
        alloc,
        "tester",
        "A station on a real bus, through two pipes: asks, reads and clears",
        pipes(),
        &OPTIONS,
    )
}

/// The job of the words behind `tester`.
pub(crate) fn job<'a>(alloc: Global, found: &ArgMatches<'a>) -> Result<Job<'a>, LineFault>
    ensures range { IfOk result HasCounts }
    ensures testing { result ≡ Ok Job.Script → ⊥ }
    ensures memory { IfErr result (λ fault. fault ≡ LineFault.Memory) }
{
    match listed(alloc, found, "order") {
        Ok(orders) => Ok(Job::Tester {
            words: words(found),
            orders,
        }),
        Err(_) => Err(LineFault::Memory),
    }
}

/// The words behind `tester` that are given once.
fn words<'a>(found: &ArgMatches<'a>) -> TesterArguments<'a> {
    TesterArguments {
        name: found.get_str("name"),
        address: found.get_str("address"),
        grant: found.get_str("grant"),
        bus: found.get_str("bus"),
        gap: found.get_str("gap"),
        settle: found.get_str("settle"),
        pace: found.get_str("pace"),
        times: found.get_str("times"),
        format: found.get_str("format"),
        control: found.get_str("control"),
        report: found.get_str("report"),
        every: found.get_str("every"),
        most: found.get_str("most"),
        keep: found.get_str("keep"),
        strict: found.get_flag("strict"),
        yes: found.get_flag("yes"),
    }
}
