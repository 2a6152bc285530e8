//! What is asked of the units while the bus runs: some of the commands of a script, with a unit's place in the place of a seat.
ghost use Rattle.std.specs.Prelude.{◌≡◌, ◌+◌, ◌-◌, ◌^◌, min};

use crate::fleet::Fleet;
use dm_messages::Kind;
use fault_memory::{FaultChange, FaultError};
use live_unit::{LiveError, QueueCounts};
use script_line::{CodeChange, Command};
use std::alloc::Global;
use std::{fmt, str};
use vehicle::{VehicleFault, read_fail};

/// The number of the refusal `Unclaimed`, as a script's answers have it.
const UNCLAIMED: u8 = 26;

/// Who reads the lines of orders.
#[derive(Drop)]
pub struct OrderReader {
    /// How many lines were read.
    number: u64,
}

/// What came of an order. `Display` writes the answer's line without its end: the number of the order's line, from 1, and what came
/// of it in the words of a script's answers, as `order 3: ok`.
#[derive(Clone, Copy)]
pub struct Answer {
    number: u64,
    reply: Reply,
}

/// What is asked of a unit.
#[derive(Clone, Copy)]
struct ControlOrder {
    command: Command,
}

/// What came of it.
#[derive(Clone, Copy)]
enum Reply {
    /// It is done.
    Done,
    /// A message was begun.
    Begun,
    /// A session of that kind is open: no message was begun.
    Held,
    /// A unit's counts.
    QueueCounts(QueueCounts),
    /// The line is no order.
    BadLine,
    /// No unit at that place is on the bus.
    NoUnit,
    /// A fault memory refused a change.
    Fault(FaultError),
    /// A unit refused.
    Unit(LiveError),
}

impl OrderReader {
    /// No line was read.
    pub fn new() -> OrderReader {
        OrderReader { number: 0 }
    }

    /// Takes the next line, with its end, and carries its order out. No answer has a line that is silent: empty, or behind a `#`.
    pub fn take(&mut self, alloc: Global, fleet: &mut Fleet, line: &[u8]) -> Option<Answer>
        requires { Unit {0} }
    {
        let number = self.next_number();
        let text = str::from_utf8(line).unwrap_or("?").trim_end();
        if script_line::is_silent(text) {
            return None;
        }
        let reply = match failing_in(text) {
            Some((place, words)) => fail(alloc, fleet, place, words),
            None => match ControlOrder::read(text) {
                Some(order) => order.give(alloc, fleet),
                None => Reply::BadLine,
            },
        };
        Some(Answer { number, reply })
    }

    /// The number of the next line, from 1 on; it stops at the greatest.
    fn next_number(&mut self) -> u64
        ensures counted { self.new.number ≡ min (self.old.number + 1) (2 ^ 64 - 1) }
        ensures answered { result ≡ self.new.number }
    {
        self.number = self.number.saturating_add(1);
        self.number
    }
}

impl fmt::Display for Answer {
    fn fmt<W: fmt::Write>(&self, f: &mut fmt::Formatter<W>) -> fmt::Result {
        write!(f, "order {}: {}", self.number, self.reply)
    }
}

impl ControlOrder {
    /// The order of a line; none where it is none.
    fn read(line: &str) -> Option<ControlOrder> {
        let line = script_line::read_line(line)?;
        match line.command {
            Command::Change { .. }
            | Command::Lamps { .. }
            | Command::Dm1 { .. }
            | Command::Leave { .. }
            | Command::Counts { .. } => Some(ControlOrder {
                command: line.command,
            }),
            _ => None,
        }
    }

    /// Carries the order out.
    fn give(&self, alloc: Global, fleet: &mut Fleet) -> Reply
        requires { Unit {0} }
    {
        match self.command {
            Command::Change {
                seat,
                change,
                spn,
                fmi,
                count,
            } => change_codes(fleet, seat, change, spn, fmi, count),
            Command::Lamps { seat, lamps } => {
                changed(fleet.change(seat, FaultChange::Lamp { lamps }))
            }
            Command::Dm1 { seat } => begun(fleet.begin(alloc, seat, Kind::Dm1)),
            Command::Leave { seat } => match fleet.leave(seat) {
                Some(()) => Reply::Done,
                None => Reply::NoUnit,
            },
            Command::Counts { seat } => match fleet.counts(seat) {
                Some(counts) => Reply::QueueCounts(counts),
                None => Reply::NoUnit,
            },
            _ => Reply::BadLine,
        }
    }
}

/// The unit that is to fail, and how, where that is what a line asks for.
fn failing_in(text: &str) -> Option<(u32, &str)> {
    let rest = text.strip_prefix("fail ")?;
    let (place, words) = rest.trim_start().split_once(' ')?;
    Some((script_line::read_number(place)?, words))
}

/// Has a unit fail as these words say.
fn fail(alloc: Global, fleet: &mut Fleet, place: u32, words: &str) -> Reply
    requires { Unit {0} }
{
    let line = match read_fail(alloc, words) {
        Ok(line) => line,
        Err(VehicleFault::Refused(_)) => return Reply::BadLine,
        Err(VehicleFault::Memory) => return Reply::Fault(FaultError::OutOfMemory),
    };
    match fleet.fail(place, &line) {
        Some(Ok(())) => Reply::Done,
        Some(Err(_)) => Reply::Fault(FaultError::OutOfMemory),
        None => Reply::NoUnit,
    }
}

/// Changes codes of one FMI, from an SPN on; ends at the first that is refused.
fn change_codes(
    fleet: &mut Fleet,
    place: u32,
    change: CodeChange,
    spn: u32,
    fmi: u8,
    count: u32,
) -> Reply
    requires { Unit {0} }
{
    for offset in 0..count {
        let spn = spn.saturating_add(offset);
        let change = match change {
            CodeChange::Set => FaultChange::Set { spn, fmi },
            CodeChange::Heal => FaultChange::Heal { spn, fmi },
            CodeChange::Pend => FaultChange::Pend { spn, fmi },
            CodeChange::Unpend => FaultChange::Unpend { spn, fmi },
        };
        match changed(fleet.change(place, change)) {
            Reply::Done => {}
            refused => return refused,
        }
    }
    Reply::Done
}

fn changed(made: Option<Result<(), FaultError>>) -> Reply {
    match made {
        Some(Ok(())) => Reply::Done,
        Some(Err(error)) => Reply::Fault(error),
        None => Reply::NoUnit,
    }
}

fn begun(made: Option<Result<bool, LiveError>>) -> Reply {
    match made {
        Some(Ok(true)) => Reply::Begun,
        Some(Ok(false)) => Reply::Held,
        Some(Err(LiveError::OutOfMemory)) => Reply::Fault(FaultError::OutOfMemory),
        Some(Err(error)) => Reply::Unit(error),
        None => Reply::NoUnit,
    }
}

impl fmt::Display for Reply {
    fn fmt<W: fmt::Write>(&self, f: &mut fmt::Formatter<W>) -> fmt::Result {
        match self {
            Reply::Done => write!(f, "ok"),
            Reply::Begun => write!(f, "begun"),
            Reply::Held => write!(f, "held"),
            Reply::QueueCounts(counts) => {
                let QueueCounts {
                    put,
                    written,
                    withdrawn,
                    waiting,
                } = *counts;
                write!(f, "counts {put} {written} {withdrawn} {waiting}")
            }
            Reply::BadLine => write!(f, "bad line"),
            Reply::NoUnit => write!(f, "no unit"),
            Reply::Fault(error) => write!(f, "refused {} {error}", error.number()),
            Reply::Unit(LiveError::Unclaimed) => write!(f, "refused {UNCLAIMED} Unclaimed"),
            Reply::Unit(error) => write!(f, "refused {error}"),
        }
    }
}
