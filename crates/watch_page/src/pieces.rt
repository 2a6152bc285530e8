use safe_text::Page;
use std::io::Write;

/// Writes a number between two pieces of markup.
pub(crate) fn write_count<W: Write>(
    page: &mut Page<W>,
    before: &'static str,
    count: u64,
    after: &'static str,
) {
    page.markup(before);
    page.number(count);
    page.markup(after);
}

/// Writes markup between two other pieces.
pub(crate) fn write_between<W: Write>(
    page: &mut Page<W>,
    before: &'static str,
    word: &'static str,
    after: &'static str,
) {
    page.markup(before);
    page.markup(word);
    page.markup(after);
}

/// The word for one, or that for several.
pub(crate) fn by_count(count: u64, one: &'static str, several: &'static str) -> &'static str {
    if count == 1 { one } else { several }
}
