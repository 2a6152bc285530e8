//! What becomes of orders as lines for people.

use crate::order::TestOrder;
use crate::part::{
    Outcome, Seen, UnitOutcome, UnitVerdict, cut_words, doubt_words, finding_word, found_word,
};
use dm_messages::Shown;
use dm_words::{CodeWords, LampBytes, LampWords};
use frame_words::ControlWords;
use live_station::{Finding, Order, Verdict};
use name_field::Name;
use std::fmt;

/// The line of a verdict.
#[derive(Clone, Copy)]
pub(crate) struct VerdictLine<'a> {
    pub(crate) number: u64,
    pub(crate) order: &'a TestOrder,
    pub(crate) outcome: &'a Outcome,
    pub(crate) seen: &'a Seen<'a>,
    /// Of an order for all: what came of it by unit.
    pub(crate) units: &'a [UnitOutcome],
}

/// The line of what one unit said to an order for all.
#[derive(Clone, Copy)]
pub(crate) struct PartLine<'a> {
    pub(crate) number: u64,
    pub(crate) order: &'a TestOrder,
    pub(crate) name: Name,
    pub(crate) part: Part<'a>,
}

/// What one unit said to an order for all.
#[derive(Clone, Copy)]
pub(crate) enum Part<'a> {
    /// The message.
    Shown(&'a Shown),
    /// It cannot be read.
    Unread,
    /// The address that it claims.
    Holds(u8),
    /// What came of its clear.
    Clear(&'a Verdict, &'a Seen<'a>),
}

impl fmt::Display for VerdictLine<'_> {
    fn fmt<W: fmt::Write>(&self, f: &mut fmt::Formatter<W>) -> fmt::Result {
        let (number, order) = (self.number, self.order);
        write!(f, "order {number} {order}: ")?;
        match self.outcome {
            Outcome::Found(verdict) => {
                let words = FoundWords(verdict, self.seen);
                write!(f, "{words}\n")
            }
            outcome => {
                let words = OutcomeWords(outcome, self.units);
                write!(f, "{words}\n")
            }
        }
    }
}

impl fmt::Display for PartLine<'_> {
    fn fmt<W: fmt::Write>(&self, f: &mut fmt::Formatter<W>) -> fmt::Result {
        let (number, order, name) = (self.number, self.order, self.name);
        write!(f, "order {number} {order}, {name}: ")?;
        match self.part {
            Part::Shown(shown) => {
                let words = ShownWords(shown);
                write!(f, "{words}\n")
            }
            Part::Unread => write!(f, "unread\n"),
            Part::Holds(address) => write!(f, "holds {address}\n"),
            Part::Clear(verdict, seen) => {
                let words = FoundWords(verdict, seen);
                write!(f, "{words}\n")
            }
        }
    }
}

/// What came of an order that is not for one unit, or that the station did not open.
#[derive(Clone, Copy)]
struct OutcomeWords<'a>(&'a Outcome, &'a [UnitOutcome]);

impl fmt::Display for OutcomeWords<'_> {
    fn fmt<W: fmt::Write>(&self, f: &mut fmt::Formatter<W>) -> fmt::Result {
        match self.0 {
            Outcome::NobodyClaims(address) => { write!(f, "no such unit: nobody claims {address}") }
            Outcome::CutOff => write!(f, "cut off: not sent"),
            Outcome::Withheld => write!(f, "withheld: it wants --yes"),
            Outcome::Answered(units) => {
                let word = plural(*units as u64, "unit", "units");
                write!(f, "answered: {units} {word}")?;
                write_missing(f, self.1)
            }
            Outcome::Cleared(clears) => {
                let (cleared, positive, units) = (clears.cleared, clears.positive, clears.units);
                let word = plural(units, "unit", "units");
                write!(
                    f,
                    "cleared {cleared}, positive {positive} of {units} {word}"
                )
            }
            outcome => write!(f, "{}", outcome.word(&Seen::nothing())),
        }
    }
}

/// The units that did not answer.
fn write_missing<W: fmt::Write>(f: &mut fmt::Formatter<W>, units: &[UnitOutcome]) -> fmt::Result {
    let mut before = ", without an answer: ";
    for unit in units {
        if let UnitVerdict::Silent = unit.verdict {
            let name = unit.name;
            write!(f, "{before}{name}")?;
            before = " ";
        }
    }
    Ok(())
}

fn plural(count: u64, one: &'static str, more: &'static str) -> &'static str {
    if count == 1 { one } else { more }
}

/// What the station found.
#[derive(Clone, Copy)]
struct FoundWords<'a>(&'a Verdict, &'a Seen<'a>);

impl fmt::Display for FoundWords<'_> {
    fn fmt<W: fmt::Write>(&self, f: &mut fmt::Formatter<W>) -> fmt::Result {
        let (verdict, seen) = (self.0, self.1);
        let word = found_word(verdict, seen);
        write!(f, "{word}")?;
        let tail = FindingTail(verdict);
        write!(f, "{tail}")?;
        match (&verdict.order, &verdict.finding) {
            (Order::Ask { .. }, Finding::Answered) => write_shown(f, seen.shown)?,
            (Order::AskClaim { .. }, Finding::Answered) => write_held(f, seen.address)?,
            _ => {}
        }
        write_left(f, &verdict.left, seen.left)
    }
}

/// What stands behind the word of a finding: when, where and how often; or why.
#[derive(Clone, Copy)]
struct FindingTail<'a>(&'a Verdict);

impl fmt::Display for FindingTail<'_> {
    fn fmt<W: fmt::Write>(&self, f: &mut fmt::Formatter<W>) -> fmt::Result {
        let verdict = self.0;
        match verdict.finding {
            Finding::Answered | Finding::Unread | Finding::Positive => {
                write_when(f, verdict.after, verdict.address)?;
                write_tries(f, verdict.tries)
            }
            Finding::Refused(control) => write_control(f, control),
            Finding::Silent | Finding::Busy => write_tries(f, verdict.tries),
            Finding::InDoubt(doubt) => write!(f, ": {}", doubt_words(doubt)),
            Finding::CutOff { was_sent } => write!(f, ": {}", cut_words(was_sent)),
            Finding::Obeyed | Finding::NoSuchUnit | Finding::LostAddress => Ok(()),
        }
    }
}

/// The control byte of an acknowledgment, in words where it has some (SAE J1939-21).
fn write_control<W: fmt::Write>(f: &mut fmt::Formatter<W>, control: u8) -> fmt::Result {
    let words = ControlWords(control);
    match control {
        0..=3 => write!(f, ": {words} ({control})"),
        _ => write!(f, ": {words}"),
    }
}

/// How long after the request, and at which address.
fn write_when<W: fmt::Write>(
    f: &mut fmt::Formatter<W>,
    after: Option<u64>,
    address: Option<u8>,
) -> fmt::Result {
    if let Some(after) = after {
        let (seconds, millis) = (after / 1_000_000, after / 1000 % 1000);
        write!(f, " after {seconds}.{millis:03} s")?;
    }
    if let Some(address) = address {
        write!(f, ", at {address}")?;
    }
    Ok(())
}

fn write_tries<W: fmt::Write>(f: &mut fmt::Formatter<W>, tries: u8) -> fmt::Result {
    let word = plural(u64::from(tries), "try", "tries");
    write!(f, ", {tries} {word}")
}

fn write_shown<W: fmt::Write>(f: &mut fmt::Formatter<W>, shown: Option<&Shown>) -> fmt::Result {
    match shown {
        Some(shown) => {
            let words = ShownWords(shown);
            write!(f, ": {words}")
        }
        None => Ok(()),
    }
}

fn write_held<W: fmt::Write>(f: &mut fmt::Formatter<W>, address: Option<u8>) -> fmt::Result {
    match address {
        Some(address) => write!(f, ": holds {address}"),
        None => Ok(()),
    }
}

/// What is left behind a clear, or why that is not known.
fn write_left<W: fmt::Write>(
    f: &mut fmt::Formatter<W>,
    left: &Option<Finding>,
    shown: Option<&Shown>,
) -> fmt::Result {
    match (left, shown) {
        (None, _) => Ok(()),
        (Some(_), Some(shown)) if shown.codes.as_slice().is_empty() => {
            write!(f, "; left: no codes")
        }
        (Some(_), Some(shown)) => {
            let words = ShownWords(shown);
            write!(f, "; left: {words}")
        }
        (Some(finding), None) => {
            let word = finding_word(*finding);
            write!(f, "; left: {word}")
        }
    }
}

/// Lamps and codes.
#[derive(Clone, Copy)]
struct ShownWords<'a>(&'a Shown);

impl fmt::Display for ShownWords<'_> {
    fn fmt<W: fmt::Write>(&self, f: &mut fmt::Formatter<W>) -> fmt::Result {
        let lamps = LampWords(self.0.lamps);
        let bytes = LampBytes(self.0.lamps);
        let codes = CodeWords(self.0.codes.as_slice());
        write!(f, "{lamps} ({bytes}); {codes}")
    }
}
