ghost use Rattle.std.specs.Prelude.{◌≡◌, ◌<◌, ◌≤◌, IfSome};

use jiff::tz::Offset;

/// The offset that a word says: `+02:00`, `-05:00`, with `UTC` before it or not; none for any other word.
pub(crate) fn offset_of(word: &str) -> Option<Offset> {
    let text = word.strip_prefix("UTC").unwrap_or(word);
    if let Some(text) = text.strip_prefix('+') {
        let seconds = seconds_of(text)?;
        return Offset::from_seconds(seconds as i32).ok();
    }
    let text = text.strip_prefix('-')?;
    let seconds = seconds_of(text)?;
    Offset::from_seconds(-(seconds as i32)).ok()
}

/// The seconds of `HH:MM`, at most 23 hours and 59 minutes.
fn seconds_of(text: &str) -> Option<u32>
    ensures { IfSome result (λ seconds. seconds < 86_400) }
{
    let (hours, minutes) = text.split_once(':')?;
    let hours = two_digits(hours, 23)?;
    let minutes = two_digits(minutes, 59)?;
    Some((hours * 60 + minutes) * 60)
}

/// The number of two decimal digits, where it is at most this.
fn two_digits(text: &str, most: u32) -> Option<u32>
    ensures { IfSome result (λ number. number ≤ most) }
{
    if text.len() != 2 || !text.bytes().all(|byte| byte.is_ascii_digit()) {
        return None;
    }
    match text.parse::<u32>() {
        Ok(number) if number <= most => Some(number),
        _ => None,
    }
}
