use crate::moment::write_moment;
use crate::words::PageWords;
use candump_line::Time;
use log_lines::{DurationWords, Fraction};
use picture::Axis;
use safe_text::Page;
use std::io::Write;

/// Writes how long before the end a DM1 was last heard, in microseconds.
pub(crate) fn write_silence<W: Write>(page: &mut Page<W>, words: &PageWords<'_>, silence: u64) {
    page.markup("<div class=\"silent\">not heard for the last ");
    page.made_text(DurationWords(silence).to_string(words.alloc));
    page.markup(", so not current; last told:</div>");
}

/// Writes when a DM1 was last heard, where its line has a time.
pub(crate) fn write_last_heard<W: Write>(
    page: &mut Page<W>,
    words: &PageWords<'_>,
    last: Option<Time>,
) {
    match last {
        Some(last) if words.axis == Axis::Times => {
            page.markup("<div class=\"past\">DM1 last heard ");
            write_moment(page, words, last.micros(), Fraction::Seconds);
            page.markup("</div>");
        }
        _ => {}
    }
}
