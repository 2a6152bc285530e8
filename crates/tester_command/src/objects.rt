//! What becomes of orders as objects of JSON, one a line.

use crate::lines::{Part, PartLine, VerdictLine};
use crate::order::TestOrder;
use crate::part::{Outcome, Seen, UnitOutcome, cut_words, doubt_words, finding_word, found_word};
use can_frame::Frame;
use candump_line::Time;
use dm_messages::Shown;
use dm_words::{LampBytes, NO_COUNT, failure_mode_words};
use live_station::{Finding, Order, Verdict};
use std::fmt;
use trouble_code::Dtc;

/// The latest line that was heard: its number, 0 before the first, and its time.
#[derive(Clone, Copy)]
pub(crate) struct LineMark {
    pub(crate) line: u64,
    pub(crate) time: Option<Time>,
}

/// What an object begins with.
impl fmt::Display for LineMark {
    fn fmt<W: fmt::Write>(&self, f: &mut fmt::Formatter<W>) -> fmt::Result {
        let line = self.line;
        write!(f, "{{\"line\":{line},\"time\":")?;
        match self.time {
            Some(time) => write!(f, "\"{time}\""),
            None => write!(f, "null"),
        }
    }
}

/// An order begins.
#[derive(Clone, Copy)]
pub(crate) struct OrderObject<'a> {
    pub(crate) mark: LineMark,
    pub(crate) number: u64,
    pub(crate) order: &'a TestOrder,
}

impl fmt::Display for OrderObject<'_> {
    fn fmt<W: fmt::Write>(&self, f: &mut fmt::Formatter<W>) -> fmt::Result {
        let (mark, number, order) = (self.mark, self.number, self.order);
        write!(
            f,
            "{mark},\"event\":\"order\",\"order\":{number},\"text\":\"{order}\"}}\n"
        )
    }
}

/// The line of a file of orders that is none.
#[derive(Clone, Copy)]
pub(crate) struct BadOrderObject {
    pub(crate) mark: LineMark,
    pub(crate) number: u64,
}

impl fmt::Display for BadOrderObject {
    fn fmt<W: fmt::Write>(&self, f: &mut fmt::Formatter<W>) -> fmt::Result {
        let (mark, number) = (self.mark, self.number);
        write!(
            f,
            "{mark},\"event\":\"verdict\",\"order\":{number},\"text\":null,\"verdict\":\"bad line\"}}\n"
        )
    }
}

/// A frame is written.
#[derive(Clone, Copy)]
pub(crate) struct SentObject {
    pub(crate) mark: LineMark,
    pub(crate) frame: Frame,
    /// The number of the order for which it is.
    pub(crate) order: Option<u64>,
}

impl fmt::Display for SentObject {
    fn fmt<W: fmt::Write>(&self, f: &mut fmt::Formatter<W>) -> fmt::Result {
        let mark = self.mark;
        let id = self.frame.id();
        write!(f, "{mark},\"event\":\"sent\",\"frame\":\"{id}#")?;
        for byte in self.frame.bytes() {
            write!(f, "{byte:02X}")?;
        }
        match self.order {
            Some(number) => write!(f, "\",\"order\":{number}}}\n"),
            None => write!(f, "\",\"order\":null}}\n"),
        }
    }
}

/// The tester's own address changed.
#[derive(Clone, Copy)]
pub(crate) struct OwnObject {
    pub(crate) mark: LineMark,
    pub(crate) address: Option<u8>,
    pub(crate) why: &'static str,
}

impl fmt::Display for OwnObject {
    fn fmt<W: fmt::Write>(&self, f: &mut fmt::Formatter<W>) -> fmt::Result {
        let (mark, why) = (self.mark, self.why);
        let address = Known(self.address);
        write!(
            f,
            "{mark},\"event\":\"own\",\"address\":{address},\"why\":\"{why}\"}}\n"
        )
    }
}

/// A number that may not be known.
#[derive(Clone, Copy)]
struct Known(Option<u8>);

impl fmt::Display for Known {
    fn fmt<W: fmt::Write>(&self, f: &mut fmt::Formatter<W>) -> fmt::Result {
        match self.0 {
            Some(number) => write!(f, "{number}"),
            None => write!(f, "null"),
        }
    }
}

/// A verdict.
#[derive(Clone, Copy)]
pub(crate) struct VerdictObject<'a> {
    pub(crate) mark: LineMark,
    pub(crate) line: &'a VerdictLine<'a>,
}

impl fmt::Display for VerdictObject<'_> {
    fn fmt<W: fmt::Write>(&self, f: &mut fmt::Formatter<W>) -> fmt::Result {
        let (mark, number, order) = (self.mark, self.line.number, self.line.order);
        write!(
            f,
            "{mark},\"event\":\"verdict\",\"order\":{number},\"text\":\"{order}\",\"verdict\":"
        )?;
        let word = self.line.outcome.word(self.line.seen);
        write!(f, "\"{word}\"")?;
        match self.line.outcome {
            Outcome::Found(verdict) => write_found(f, verdict, self.line.seen)?,
            Outcome::NobodyClaims(address) => {
                write!(f, ",\"why\":\"nobody claims {address}\"")?;
            }
            Outcome::CutOff => write!(f, ",\"why\":\"not sent\"")?,
            Outcome::Withheld => write!(f, ",\"why\":\"it wants --yes\"")?,
            _ => {}
        }
        if order.is_for_all() {
            write_units(f, self.line.units)?;
        }
        write!(f, "}}\n")
    }
}

/// What one unit said to an order for all.
#[derive(Clone, Copy)]
pub(crate) struct PartObject<'a> {
    pub(crate) mark: LineMark,
    pub(crate) line: &'a PartLine<'a>,
}

impl fmt::Display for PartObject<'_> {
    fn fmt<W: fmt::Write>(&self, f: &mut fmt::Formatter<W>) -> fmt::Result {
        let (mark, number, order) = (self.mark, self.line.number, self.line.order);
        write!(
            f,
            "{mark},\"event\":\"part\",\"order\":{number},\"text\":\"{order}\",\"verdict\":"
        )?;
        let name = self.line.name;
        match self.line.part {
            Part::Shown(shown) => {
                write!(f, "\"answered\",\"name\":\"{name}\"")?;
                write_entry(f, "entry", shown)?;
            }
            Part::Unread => write!(f, "\"unread\",\"name\":\"{name}\"")?,
            Part::Holds(address) => {
                write!(f, "\"answered\",\"name\":\"{name}\",\"holds\":{address}")?;
            }
            Part::Clear(verdict, seen) => {
                let word = found_word(verdict, seen);
                write!(f, "\"{word}\"")?;
                write_found(f, verdict, seen)?;
            }
        }
        write!(f, "}}\n")
    }
}

/// What the station found, behind its word.
fn write_found<W: fmt::Write>(
    f: &mut fmt::Formatter<W>,
    verdict: &Verdict,
    seen: &Seen<'_>,
) -> fmt::Result {
    match verdict.order.name() {
        Some(name) => write!(f, ",\"name\":\"{name}\"")?,
        None => write!(f, ",\"name\":null")?,
    }
    let (address, group) = (Known(verdict.address), verdict.order.pgn().number());
    write!(f, ",\"address\":{address},\"group\":{group}")?;
    if let Finding::Refused(control) = verdict.finding {
        write!(f, ",\"control\":{control}")?;
    }
    let tries = verdict.tries;
    write!(f, ",\"tries\":{tries},\"after\":")?;
    match verdict.after {
        Some(after) => write!(f, "{after}")?,
        None => write!(f, "null")?,
    }
    write_why(f, &verdict.finding)?;
    write_answer(f, verdict, seen)
}

/// Why an order is in doubt, or how much was done of one that was cut off.
fn write_why<W: fmt::Write>(f: &mut fmt::Formatter<W>, finding: &Finding) -> fmt::Result {
    let words = match finding {
        Finding::InDoubt(doubt) => doubt_words(*doubt),
        Finding::CutOff { was_sent } => cut_words(*was_sent),
        _ => return Ok(()),
    };
    write!(f, ",\"why\":\"{words}\"")
}

/// What was told, or what is left.
fn write_answer<W: fmt::Write>(
    f: &mut fmt::Formatter<W>,
    verdict: &Verdict,
    seen: &Seen<'_>,
) -> fmt::Result {
    if let Some(shown) = seen.shown {
        write_entry(f, "entry", shown)?;
    }
    if let (Order::AskClaim { .. }, Finding::Answered) = (&verdict.order, &verdict.finding) {
        let holds = Known(seen.address);
        write!(f, ",\"holds\":{holds}")?;
    }
    match (&verdict.left, seen.left) {
        (None, _) => Ok(()),
        (Some(_), Some(shown)) => write_entry(f, "left", shown),
        (Some(finding), None) => {
            let word = finding_word(*finding);
            write!(f, ",\"left\":null,\"left_why\":\"{word}\"")
        }
    }
}

/// What came of an order for all by unit.
fn write_units<W: fmt::Write>(f: &mut fmt::Formatter<W>, units: &[UnitOutcome]) -> fmt::Result {
    write!(f, ",\"units\":[")?;
    let mut before = "";
    for unit in units {
        let (name, verdict) = (unit.name, unit.verdict.word());
        write!(
            f,
            "{before}{{\"name\":\"{name}\",\"verdict\":\"{verdict}\"}}"
        )?;
        before = ",";
    }
    write!(f, "]")
}

/// Lamps and codes under a key.
fn write_entry<W: fmt::Write>(
    f: &mut fmt::Formatter<W>,
    key: &'static str,
    shown: &Shown,
) -> fmt::Result {
    let lamps = LampBytes(shown.lamps);
    write!(f, ",\"{key}\":{{\"lamps\":\"{lamps}\",\"codes\":[")?;
    let mut before = "";
    for code in shown.codes.as_slice() {
        let code = CodeObject(*code);
        write!(f, "{before}{code}")?;
        before = ",";
    }
    write!(f, "]}}")
}

/// A code, as `watch` writes it.
#[derive(Clone, Copy)]
struct CodeObject(Dtc);

impl fmt::Display for CodeObject {
    fn fmt<W: fmt::Write>(&self, f: &mut fmt::Formatter<W>) -> fmt::Result {
        let (spn, fmi, count) = (self.0.spn(), self.0.fmi(), self.0.count());
        write!(f, "{{\"spn\":{spn},\"fmi\":{fmi},\"count\":")?;
        match count {
            NO_COUNT => write!(f, "null")?,
            count => write!(f, "{count}")?,
        }
        let words = failure_mode_words(fmi);
        write!(f, ",\"fmi_text\":\"{words}\"}}")
    }
}
