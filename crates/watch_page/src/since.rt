use crate::labels::{write_identity, write_label};
use crate::message_words::{write_meaning, write_numbers};
use crate::pieces::write_count;
use crate::view::View;
use crate::words::PageWords;
use picture::{DrawnUnit, Since, SinceThen};
use safe_text::Page;
use std::io::Write;

/// How many changes are listed.
const MOST: usize = 200;

/// Writes what changed since an earlier visit, where one is given; of very many changes the first, and how many further ones there are.
pub(crate) fn write_since<W: Write>(page: &mut Page<W>, view: &View<'_>, words: &PageWords<'_>) {
    let Some(changes) = view.since else {
        return;
    };
    page.markup("<h2>Since the earlier visit</h2>\n<ul class=\"since\">\n");
    for change in listed_of(changes) {
        write_change(page, view, words, change);
    }
    if changes.is_empty() {
        page.markup("<li>no code is new, came back or is gone</li>\n");
    }
    let more = changes.len().saturating_sub(MOST);
    if more > 0 {
        write_count(page, "<li>and ", more as u64, " more</li>\n");
    }
    page.markup("</ul>\n");
}

/// The changes that are listed: the first.
fn listed_of(changes: &[SinceThen]) -> &[SinceThen] {
    match changes.get(..MOST) {
        Some(first) => first,
        None => changes,
    }
}

fn write_change<W: Write>(
    page: &mut Page<W>,
    view: &View<'_>,
    words: &PageWords<'_>,
    change: &SinceThen,
) {
    page.markup(front_of(change.what));
    write_numbers(page, change.spn, change.fmi);
    page.markup("</b> <span class=\"text\">");
    write_meaning(page, words, "", change.spn, change.fmi);
    page.markup("</span>, <span class=\"text\">");
    write_unit(page, view, change);
    page.markup("</span></li>\n");
}

/// Whose code it is.
fn write_unit<W: Write>(page: &mut Page<W>, view: &View<'_>, change: &SinceThen) {
    let unit = DrawnUnit {
        bus: u16::MAX,
        sender: change.sender,
    };
    write_label(page, view.units, &unit);
    page.markup(" <span class=\"name\">");
    write_identity(page, view, &unit);
    page.markup("</span>");
}

/// How a code changed, and what stands before it.
fn front_of(what: Since) -> &'static str {
    match what {
        Since::New => "<li><span class=\"chip red\">new</span> <b>",
        Since::CameBack => "<li><span class=\"chip amber\">came back</span> <b>",
        Since::Gone => "<li><span class=\"chip fine\">gone</span> <b>",
        Since::NotHeard => "<li><span class=\"chip changing\">not heard</span> <b>",
    }
}
