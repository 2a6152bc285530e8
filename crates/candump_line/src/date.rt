//! A date and a time of day, as `candump -tA` writes them.
ghost use Rattle.std.specs.Prelude.{◌≡◌, ◌≤◌, ◌<◌, ◌^◌, ◌*◌, ◌+◌, ◌-◌, ◌++◌, ◌∷◌, [], ℕ, List, IfSome, MatchOption, Some, None, length, slice_index, sum, take};
ghost use Rattle.candump_line.specs.Calendar.{clock_micros, clock_text, date_text, days_from_1970, days_of_years, is_leap_year, leap_days, month_lengths, IsClock, IsDate};
ghost use Rattle.candump_line.specs.LineText.{decimal_digits, BeginsWithElevenDigits, BeginsWithNoDigit};
ghost use Rattle.std.specs.Char.{digit_value};

use crate::digits::{behind, leading_number};
use crate::time::leading_micros;

const DAY_MICROS: u64 = 86_400_000_000;

/// The microseconds from the start of 1970 to the date and the time of day that stand at the front of a text, and what stands
/// behind them.
pub(crate) fn leading_date_micros(text: &[u8]) -> Option<(u64, &[u8])>
    ensures reads { (year month day hours minutes seconds digits ticks : ℕ) → IsDate year month day → IsClock hours minutes seconds digits ticks
        → text.now ≡ date_text year month day (32 ∷ clock_text hours minutes seconds digits ticks [])
        → MatchOption result ⊥ (λ found. (found.0 ≡ days_from_1970 year month day * 86400000000 + clock_micros hours minutes seconds digits ticks) × (length found.1.now ≡ 0)) }
    ensures too_long { BeginsWithElevenDigits text.now → result ≡ None }
{
    let (days, rest) = leading_days(text)?;
    let rest = behind(rest, b' ')?;
    let (micros, rest) = leading_day_micros(rest)?;
    Some((days * DAY_MICROS + micros, rest))
}

/// The days from the start of 1970 to the date `YYYY-MM-DD` at the front of a text, and what stands behind it.
fn leading_days(text: &[u8]) -> Option<(u64, &[u8])>
    ensures days { IfSome result (λ found. found.0 < 4_000_000) }
    ensures reads { (year month day : ℕ) (rest : List ℕ) → IsDate year month day → BeginsWithNoDigit rest → text.now ≡ date_text year month day rest
        → MatchOption result ⊥ (λ found. (found.0 ≡ days_from_1970 year month day) × (found.1.now ≡ rest)) }
    ensures too_long { BeginsWithElevenDigits text.now → result ≡ None }
{
    let (year, rest) = number_before(text, 4, b'-')?;
    let (month, rest) = number_before(rest, 2, b'-')?;
    let (day, rest) = number_of(rest, 2)?;
    match days_to(year, month, day) {
        Some(days) => Some((days, rest)),
        None => None,
    }
}

/// The microseconds from midnight to the time of day `HH:MM:SS.` with its fraction at the front of a text, and what stands behind
/// it. A leap second counts for one.
fn leading_day_micros(text: &[u8]) -> Option<(u64, &[u8])>
    ensures bound { IfSome result (λ found. found.0 < 2 ^ 40) }
    ensures reads { (hours minutes seconds digits ticks : ℕ) (rest : List ℕ) → IsClock hours minutes seconds digits ticks → BeginsWithNoDigit rest
        → text.now ≡ clock_text hours minutes seconds digits ticks rest
        → MatchOption result ⊥ (λ found. (found.0 ≡ clock_micros hours minutes seconds digits ticks) × (found.1.now ≡ rest)) }
{
    let (hours, rest) = number_before(text, 2, b':')?;
    let (minutes, rest) = number_before(rest, 2, b':')?;
    let _seconds = number_of(rest, 2)?;
    let (micros, rest) = leading_micros(rest)?;
    if hours > 23 {
        return None;
    }
    if minutes > 59 {
        return None;
    }
    if micros >= 61_000_000 {
        return None;
    }
    Some(((hours * 60 + minutes) * 60_000_000 + micros, rest))
}

/// The number that exactly so many decimal digits at the front of a text spell, which this character follows, and what stands behind
/// it.
fn number_before(text: &[u8], digits: usize, character: u8) -> Option<(u64, &[u8])>
    ensures bound { IfSome result (λ found. found.0 < 10 ^ 10) }
    ensures reads { (n : ℕ) (rest : List ℕ) → 0 < digits → digits ≤ 10 → n < 10 ^ digits → 10 ≤ digit_value character
        → text.now ≡ decimal_digits digits n [] ++ character ∷ rest → MatchOption result ⊥ (λ found. (found.0 ≡ n) × (found.1.now ≡ rest)) }
    ensures too_long { BeginsWithElevenDigits text.now → result ≡ None }
{
    let (number, rest) = number_of(text, digits)?;
    match behind(rest, character) {
        Some(rest) => Some((number, rest)),
        None => None,
    }
}

/// The number that exactly so many decimal digits at the front of a text spell, and what stands behind them.
fn number_of(text: &[u8], digits: usize) -> Option<(u64, &[u8])>
    ensures bound { IfSome result (λ found. found.0 < 10 ^ 10) }
    ensures digits { IfSome result (λ found. length found.1.now + digits ≡ length text.now) }
    ensures reads { (n : ℕ) (rest : List ℕ) → 0 < digits → digits ≤ 10 → n < 10 ^ digits → BeginsWithNoDigit rest → text.now ≡ decimal_digits digits n [] ++ rest
        → MatchOption result ⊥ (λ found. (found.0 ≡ n) × (found.1.now ≡ rest)) }
    ensures too_long { BeginsWithElevenDigits text.now → result ≡ None }
{
    let (number, rest) = leading_number(text)?;
    if text.len() - rest.len() != digits {
        return None;
    }
    Some((number, rest))
}

/// The days from the start of 1970 to a date of the Gregorian calendar, from 1970 to 9999; none where there is no such date.
fn days_to(year: u64, month: u64, day: u64) -> Option<u64>
    ensures bound { IfSome result (λ days. days < 4_000_000) }
    ensures days { IsDate year month day → result ≡ Some (days_from_1970 year month day) }
{
    if year < 1970 {
        return None;
    }
    if year > 9999 {
        return None;
    }
    let (before, length) = month_of(year, month)?;
    if day < 1 {
        return None;
    }
    if day > length {
        return None;
    }
    Some(days_before(year) + before + day - 1)
}

/// The days of a year before a month, and those of the month; none where there is no such month.
fn month_of(year: u64, month: u64) -> Option<(u64, u64)>
    ensures bound { IfSome result (λ days. (days.0 < 366) × (days.1 < 32)) }
    ensures days { 1 ≤ month → month ≤ 12 → result ≡ Some (sum (take (month - 1) (month_lengths (leap_days year))), slice_index (month_lengths (leap_days year)) (month - 1)) }
{
    let leap = leap_days(year);
    match month {
        1 => Some((0, 31)),
        2 => Some((31, 28 + leap)),
        3 => Some((59 + leap, 31)),
        4 => Some((90 + leap, 30)),
        5 => Some((120 + leap, 31)),
        6 => Some((151 + leap, 30)),
        7 => Some((181 + leap, 31)),
        8 => Some((212 + leap, 31)),
        9 => Some((243 + leap, 30)),
        10 => Some((273 + leap, 31)),
        11 => Some((304 + leap, 30)),
        12 => Some((334 + leap, 31)),
        _ => None,
    }
}

/// How many days a year has above 365.
fn leap_days(year: u64) -> u64
    ensures bound { result ≤ 1 }
    ensures days { result ≡ leap_days year }
{
    if is_leap(year) { 1 } else { 0 }
}

/// Whether a year has 366 days.
fn is_leap(year: u64) -> bool
    ensures { result ≡ is_leap_year year }
{
    year % 4 == 0 && (year % 100 != 0 || year % 400 == 0)
}

/// The days from the start of 1970 to the start of a year from 1970 to 9999.
#[tactic(auto, using(crate::proofs::DateLemmas::years_before))]
fn days_before(year: u64) -> u64
    requires least { 1970 ≤ year }
    requires most { year ≤ 9999 }
    ensures bound { result < 3_000_000 }
    ensures days { result ≡ days_of_years (year - 1970) }
{
    (year - 1970) * 365 + (year - 1969) / 4 + (year - 1601) / 400 - (year - 1901) / 100
}
