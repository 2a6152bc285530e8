ghost use Rattle.std.specs.Prelude.{◌≡◌, ◌≢◌, ◌∷◌, [], ◌*◌, ◌≤◌, slice_index, ℕ, ◌<◌, ◌^◌, ◌+◌, ◌++◌, List, IfSome, MatchOption, Some, None, length, All};
ghost use Rattle.std.specs.Option.{SomeIff};
ghost use Rattle.std.specs.Str.Parse.{IsNumeral, digits_value};
ghost use Rattle.candump_line.specs.Calendar.{SpellsDate};
ghost use Rattle.candump_line.specs.LineText.{decimal_digits, micros_of_ticks, ticks_text, time_text, BeginsWithElevenDigits, BeginsWithNoDigit, IsFraction};

use crate::date::leading_date_micros;
use crate::digits::{behind, leading_number};
use std::fmt;
use std::marker::Model;

/// The least number of microseconds that is none of a time: 10^16.
const LIMIT: u64 = 10_000_000_000_000_000;

/// A point in time in microseconds, with at most ten digits of seconds.
///
/// In a log it mostly counts from the start of the year 1970, in one that was made from the start of the run.
#[derive(Clone, Copy, Debug, PartialEq, Eq, PartialOrd, Ord)]
pub struct Time {
    micros: u64,
}

impl Model for Time {
    ghost use Rattle.std.specs.Prelude.{ℕ, ◌<◌, ◌^◌};

    ghost Value = { ℕ };

    ghost view = { λ t. t.micros };

    ghost invariant = { λ t. t.micros < 10 ^ 16 };

    ghost inverse = { λ n. record { micros = n } };
}

impl Time {
    /// The time of so many microseconds; none where that is 10^16 or more.
    pub fn from_micros(micros: u64) -> Option<Time>
        ensures { IfSome result (λ t. (micros < 10 ^ 16) × (t ≡ micros)) }
    {
        if micros >= LIMIT {
            return None;
        }
        Some(Time { micros })
    }

    /// The microseconds, below 10^16.
    pub fn micros(self) -> u64
        ensures value { result ≡ self }
        ensures bound { result < 10 ^ 16 }
    {
        self.micros
    }

    /// The time of so many microseconds, fewer than 10^16.
    pub(crate) fn of_micros(micros: u64) -> Time
        requires { micros < 10 ^ 16 }
        ensures { result ≡ micros }
    {
        Time { micros }
    }

    /// The time that a text spells; none for any other text.
    ///
    /// That is seconds in one to ten decimal digits, a point and three, six or nine digits of a second, of which what is below a
    /// microsecond is cut; or a date and a time of day, `YYYY-MM-DD HH:MM:SS` and a fraction as before, as `candump -tA` writes it.
    /// A date is taken for one of the time zone UTC, and none is before 1970.
    pub fn read(text: &str) -> Option<Time>
        ensures reads { (digits ticks : ℕ) → IsFraction digits → ticks < 10 ^ (10 + digits) → text.now ≡ ticks_text digits ticks
            → result ≡ Some (micros_of_ticks digits ticks) }
        ensures reads_back { (n : ℕ) → n < 10 ^ 16 → text.now ≡ time_text n → result ≡ Some n }
        ensures dated { (n : ℕ) → SpellsDate text.now n → result ≡ Some n }
        ensures too_long { BeginsWithElevenDigits text.now → result ≡ None }
    {
        let text = text.as_bytes();
        match leading_micros(text) {
            Some((micros, rest)) => whole_time(micros, rest),
            None => {
                let (micros, rest) = leading_date_micros(text)?;
                whole_time(micros, rest)
            }
        }
    }
}

/// The time of so many microseconds, where nothing stands behind it.
fn whole_time(micros: u64, rest: &[u8]) -> Option<Time>
    ensures { SomeIff result ((length rest.now ≡ 0) × (micros < 10 ^ 16)) micros }
{
    if !rest.is_empty() || micros >= LIMIT {
        return None;
    }
    Some(Time::of_micros(micros))
}

/// The microseconds of the seconds that stand at the front of a text with three, six or nine digits behind a point, and what stands
/// behind them.
#[inline(always)]
pub(crate) fn leading_micros(text: &[u8]) -> Option<(u64, &[u8])>
    ensures bound { IfSome result (λ found. found.0 < 10 ^ 16) }
    ensures reads { (digits ticks : ℕ) (rest : List ℕ) → IsFraction digits → ticks < 10 ^ (10 + digits) → BeginsWithNoDigit rest → text.now ≡ ticks_text digits ticks ++ rest
        → MatchOption result ⊥ (λ found. (found.0 ≡ micros_of_ticks digits ticks) × (found.1.now ≡ rest)) }
    ensures too_long { BeginsWithElevenDigits text.now → result ≡ None }
    ensures numeral { (word rest : List ℕ) (digits ticks : ℕ) → IsNumeral 10 word → length word ≤ 10 → IsFraction digits → ticks < 10 ^ digits → BeginsWithNoDigit rest
        → text.now ≡ word ++ 46 ∷ (decimal_digits digits ticks [] ++ rest)
        → MatchOption result ⊥ (λ found. (found.0 ≡ digits_value 10 word * 10 ^ 6 + micros_of_ticks digits ticks) × (found.1.now ≡ rest)) }
    ensures no_point { (word rest : List ℕ) → IsNumeral 10 word → length word ≤ 10 → BeginsWithNoDigit rest → slice_index rest 0 ≢ 46 → text.now ≡ word ++ rest → result ≡ None }
    ensures front { IfSome result (λ found. (front : List ℕ) × All (λ c. c ≢ 41) front × (text.now ≡ front ++ found.1.now)) }
{
    let (seconds, rest) = leading_number(text)?;
    let fraction = behind(rest, b'.')?;
    let (ticks, rest) = leading_number(fraction)?;
    let micros = fraction_micros(ticks, fraction.len() - rest.len())?;
    Some((seconds * 1_000_000 + micros, rest))
}

/// The microseconds of a fraction of a second in three, six or nine digits.
#[inline(always)]
fn fraction_micros(ticks: u64, digits: usize) -> Option<u64>
    requires { ticks < 10 ^ 10 }
    ensures bound { IfSome result (λ micros. micros < 10 ^ 6) }
    ensures reads { IsFraction digits → ticks < 10 ^ digits → result ≡ Some (micros_of_ticks digits ticks) }
{
    match digits {
        3 => below_a_second(ticks * 1_000),
        6 => below_a_second(ticks),
        9 => below_a_second(ticks / 1_000),
        _ => None,
    }
}

/// So many microseconds, where they are fewer than a second.
#[inline(always)]
fn below_a_second(micros: u64) -> Option<u64>
    ensures { SomeIff result (micros < 10 ^ 6) micros }
{
    if micros < 1_000_000 {
        Some(micros)
    } else {
        None
    }
}

/// Seconds, a point and six digits.
impl fmt::Display for Time {
    ghost use Rattle.std.specs.Prelude.{Some};
    ghost use Rattle.candump_line.specs.LineText.{time_text};

    ghost output = { λ t. Some (time_text t) };

    fn fmt<W: fmt::Write>(&self, f: &mut fmt::Formatter<W>) -> fmt::Result {
        let micros = self.micros();
        let seconds = micros / 1_000_000;
        let rest = micros % 1_000_000;
        write!(f, "{seconds}.{rest:06}")
    }
}
