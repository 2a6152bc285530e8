use crate::listed::write_mark;
use candump_line::Time;
use std::io;
use std::io::Write;

/// How many names of buses are kept.
pub(crate) const MOST_KEPT: usize = 64;

/// How many of them are told.
const MOST_TOLD: usize = 8;

/// Of what it is to be told.
#[derive(Clone, Copy)]
pub struct Wanted<'a> {
    pub bus: WantedBus<'a>,
    /// The first and the last time; none: any.
    pub from: Option<Time>,
    pub to: Option<Time>,
}

/// Of which bus it is to be told.
#[derive(Clone, Copy)]
pub enum WantedBus<'a> {
    /// Of the one of this name.
    Named(&'a str),
    /// Of the first that a line names.
    First,
    /// Of each.
    Each,
}

impl<'a> Wanted<'a> {
    /// What is wanted where all is.
    pub fn all() -> Wanted<'static> {
        Wanted {
            bus: WantedBus::Each,
            from: None,
            to: None,
        }
    }

    /// Tells that frames are of other times than those that are wanted.
    pub(crate) fn tell_times<E: Write>(
        &self,
        errors: &mut E,
        passed: (Time, Time),
    ) -> io::Result<()> {
        let (first, last) = passed;
        write!(errors, "frames from {first} to {last} were read; none ")?;
        match (self.from, self.to) {
            (Some(from), Some(to)) => writeln!(errors, "between {from} and {to}"),
            (Some(from), None) => writeln!(errors, "from {from} on"),
            (None, Some(to)) => writeln!(errors, "until {to}"),
            (None, None) => writeln!(errors, "at another time"),
        }
    }

    /// Tells that frames are of these buses, or of none, and none is of the one that is wanted. Where that is the first that a line
    /// names, another line may have named one.
    pub(crate) fn tell_buses<E: Write>(
        &self,
        errors: &mut E,
        buses: &[String],
        first: Option<&str>,
    ) -> io::Result<()> {
        write_names(errors, buses)?;
        match (self.bus, first) {
            (WantedBus::Named(name), _) => writeln!(errors, " were read; none of {name}"),
            (WantedBus::First, Some(name)) => {
                writeln!(
                    errors,
                    " were read; none of {name}, which is named first (--bus)"
                )
            }
            _ => writeln!(errors, " were read; none of a bus that is watched"),
        }
    }
}

/// Writes of which buses frames are.
fn write_names<E: Write>(errors: &mut E, buses: &[String]) -> io::Result<()> {
    if buses.is_empty() {
        return write!(errors, "frames that name no bus");
    }
    write!(errors, "frames of ")?;
    let more = buses.len().saturating_sub(MOST_TOLD);
    let count = buses.len().min(MOST_TOLD);
    // (a number of further ones is an item, too)
    let items = if more > 0 { count + 1 } else { count };
    for (place, name) in buses.iter().take(count).enumerate() {
        write_mark(errors, place, items)?;
        let name = name.as_str();
        write!(errors, "{name}")?;
    }
    if more == 0 {
        return Ok(());
    }
    let least = if buses.len() < MOST_KEPT {
        ""
    } else {
        "at least "
    };
    write!(errors, " and {least}{more} more")
}
