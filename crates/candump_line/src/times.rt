//! Whether the times of a log count.
ghost use Rattle.std.specs.Prelude.{◌≡◌, ◌<◌, ◌≤◌};
ghost use Rattle.candump_line.specs.TimeForms.{time_form};
ghost use Rattle.candump_line.specs.Times.{after_relative, times_after};
ghost use Rattle.candump_line.specs.Times as times;

use crate::time::Time;
use crate::time_form::TimeForm;

/// How many relative times are looked at before it is decided.
const ENOUGH: u8 = 10;

/// Whether the times of a log count, by its lines so far.
///
/// Relative times are those since the first line (`candump -tz`), which count, or since the line before (`candump -td`), which say
/// nothing of lines further apart. One line does not tell which. Of the first kind none is less than the one before it, and they
/// rise: where the first ten are so, they count, and until then and else they do not.
#[derive(Clone, Copy, PartialEq, Eq)]
pub enum Times {
    /// No line had a time yet.
    Unseen,
    /// So many lines had relative times, 1 to 9, of which none was less than the one before it: with the one behind the first, and
    /// the newest.
    Undecided {
        seen: u8,
        second: Time,
        newest: Time,
    },
    /// They count.
    Counted,
    /// They are since the line before, and count for nothing.
    Passed,
}

impl Times {
    /// Takes a line that has this time.
    pub fn take(&mut self, line: &[u8], time: Time)
        ensures { self.new ≡ times_after self.old (time_form line.now) time }
    {
        let after = self.after(line, time);
        *self = after;
    }

    /// What is known after a line that has this time.
    fn after(&self, line: &[u8], time: Time) -> Times
        ensures { result ≡ times_after self.now (time_form line.now) time }
    {
        match self {
            Times::Unseen => match TimeForm::of(line) {
                Some(TimeForm::Relative) => Times::Undecided {
                    seen: 1,
                    second: time,
                    newest: time,
                },
                _ => Times::Counted,
            },
            Times::Undecided {
                seen,
                second,
                newest,
            } => after_relative(*seen, *second, *newest, time),
            Times::Counted => Times::Counted,
            Times::Passed => Times::Passed,
        }
    }

    /// Whether they count.
    pub fn is_counted(&self) -> bool
        ensures { result ≡ times.is_counted self.now }
    {
        match self {
            Times::Counted => true,
            _ => false,
        }
    }

    /// Whether they were found to be since the line before.
    pub fn is_passed(&self) -> bool {
        match self {
            Times::Passed => true,
            _ => false,
        }
    }
}

/// What is known after another relative time.
fn after_relative(seen: u8, second: Time, newest: Time, time: Time) -> Times
    ensures { result ≡ after_relative seen second newest time }
{
    if time < newest {
        return Times::Passed;
    }
    if seen < 2 {
        return Times::Undecided {
            seen: 2,
            second: time,
            newest: time,
        };
    }
    if seen < ENOUGH - 1 {
        return Times::Undecided {
            seen: seen + 1,
            second,
            newest: time,
        };
    }
    if second < time {
        Times::Counted
    } else {
        Times::Passed
    }
}
