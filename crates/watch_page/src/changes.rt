use crate::labels::{write_bus, write_identity, write_label};
use crate::message_words::{kind_word, write_brief};
use crate::moment::write_moment;
use crate::pieces::{write_between, write_count};
use crate::view::View;
use crate::words::PageWords;
use dm_messages::Kind;
use log_lines::Fraction;
use picture::{Brief, DrawnUnit, Handover, Happened, History, Occurrence};
use safe_text::Page;
use std::io::Write;

/// How large the page may be when a further row is begun, in bytes.
const ROOM: u64 = 4_600_000;

/// How many addresses that changed hands are listed.
const HANDOVERS: usize = 50;

/// Writes which addresses changed hands, each with who lost it and who took it.
pub(crate) fn write_handovers<W: Write>(
    page: &mut Page<W>,
    view: &View<'_>,
    words: &PageWords<'_>,
) {
    let handovers = view.picture.handovers();
    if handovers.is_empty() {
        return;
    }
    page.markup("<h2>Addresses that changed hands</h2>\n<ol class=\"handed\">\n");
    let more = write_first(page, view, words, handovers);
    page.markup("</ol>\n");
    write_more(page, more.saturating_add(view.picture.handovers_left_out()));
}

/// Writes the first of them. Tells how many more there are.
fn write_first<W: Write>(
    page: &mut Page<W>,
    view: &View<'_>,
    words: &PageWords<'_>,
    handovers: &[Handover],
) -> u64 {
    let mut more = 0u64;
    let mut left = HANDOVERS;
    for handover in handovers {
        if left > 0 {
            write_handover(page, view, words, handover);
            left -= 1;
        } else {
            more = more.saturating_add(1);
        }
    }
    more
}

fn write_more<W: Write>(page: &mut Page<W>, more: u64) {
    if more > 0 {
        write_count(page, "<p>and ", more, " more times</p>\n");
    }
}

fn write_handover<W: Write>(
    page: &mut Page<W>,
    view: &View<'_>,
    words: &PageWords<'_>,
    handover: &Handover,
) {
    page.markup("<li>");
    write_moment(page, words, handover.moment, Fraction::Millis);
    page.markup(": ");
    write_unit(page, view, &handover.from);
    write_count(
        page,
        " lost address <b>",
        u64::from(handover.address),
        "</b> to ",
    );
    write_unit(page, view, &handover.to);
    page.markup("</li>\n");
}

fn write_unit<W: Write>(page: &mut Page<W>, view: &View<'_>, unit: &DrawnUnit) {
    page.markup("<span class=\"text\">");
    write_label(page, view.units, unit);
    page.markup("</span> <span class=\"name\">");
    write_identity(page, view, unit);
    page.markup("</span>");
}

/// Writes each change in a row, folded: the first, how many are left out, and the last.
pub(crate) fn write_changes<W: Write>(page: &mut Page<W>, view: &View<'_>, words: &PageWords<'_>) {
    let history = view.picture.history();
    write_count(
        page,
        "<details><summary>Each change, in order (",
        changes_in(history),
        head(),
    );
    write_rows(page, view, words, history.first());
    write_left_out(page, history.left_out());
    let (last, later) = history.last();
    write_rows(page, view, words, last);
    write_rows(page, view, words, later);
    page.markup("</tbody></table></details>\n");
}

/// How many changes there are.
fn changes_in(history: &History) -> u64 {
    let (last, later) = history.last();
    (history.first().len() as u64)
        .saturating_add(history.left_out())
        .saturating_add(last.len() as u64)
        .saturating_add(later.len() as u64)
}

/// The head of the rows.
fn head() -> &'static str {
    ")</summary><table role=\"table\"><thead role=\"rowgroup\"><tr role=\"row\"><th role=\"columnheader\" class=\"num\">Time</th>\
<th role=\"columnheader\" class=\"num\">Line</th><th role=\"columnheader\">Unit</th><th role=\"columnheader\">What</th></tr></thead><tbody role=\"rowgroup\">\n"
}

fn write_left_out<W: Write>(page: &mut Page<W>, left_out: u64) {
    if left_out > 0 {
        let before = "<tr role=\"row\"><td role=\"cell\" colspan=\"4\">";
        write_count(
            page,
            before,
            left_out,
            " changes are left out here</td></tr>\n",
        );
    }
}

/// Writes rows as long as the page has room.
fn write_rows<W: Write>(
    page: &mut Page<W>,
    view: &View<'_>,
    words: &PageWords<'_>,
    changes: &[Happened],
) {
    let mut skipped = 0u64;
    for change in changes {
        if page.has_room(ROOM) {
            write_row(page, view, words, change);
        } else {
            skipped = skipped.saturating_add(1);
        }
    }
    write_left_out(page, skipped);
}

fn write_row<W: Write>(
    page: &mut Page<W>,
    view: &View<'_>,
    words: &PageWords<'_>,
    change: &Happened,
) {
    page.markup(time_cell());
    write_moment(page, words, change.moment, Fraction::Millis);
    write_count(
        page,
        line_cell(),
        change.line,
        "</td><td role=\"cell\" data-l=\"Unit\">",
    );
    write_whose(page, view, &change.told);
    page.markup("</td><td role=\"cell\" data-l=\"What\">");
    write_what(page, view, words, &change.told);
    page.markup("</td></tr>\n");
}

fn time_cell() -> &'static str {
    "<tr role=\"row\"><td role=\"cell\" class=\"num\" data-l=\"Time\">"
}

fn line_cell() -> &'static str {
    "</td><td role=\"cell\" class=\"num\" data-l=\"Line\">"
}

fn write_whose<W: Write>(page: &mut Page<W>, view: &View<'_>, told: &Occurrence) {
    match told {
        Occurrence::At { unit, .. }
        | Occurrence::NoAddress { unit }
        | Occurrence::Message { unit, .. }
        | Occurrence::Acknowledged { unit, .. }
        | Occurrence::Unread { unit, .. } => write_unit(page, view, unit),
        Occurrence::Missed { bus, .. } | Occurrence::Unowned { bus, .. } => {
            write_bus(page, view.buses, *bus);
        }
    }
}

fn write_what<W: Write>(
    page: &mut Page<W>,
    view: &View<'_>,
    words: &PageWords<'_>,
    told: &Occurrence,
) {
    match told {
        Occurrence::At {
            address,
            lost_by,
            ..
        } => write_held(page, view, *address, lost_by),
        Occurrence::Message { kind, brief, .. } => write_message(page, words, *kind, brief),
        other => write_other(page, other),
    }
}

/// What neither a claim nor a message that could be read told.
fn write_other<W: Write>(page: &mut Page<W>, told: &Occurrence) {
    match told {
        Occurrence::NoAddress { .. } => page.markup("holds no address"),
        Occurrence::Missed { count, .. } => write_count(page, "", *count, missed_words()),
        Occurrence::Unowned { source, .. } => write_unowned(page, *source),
        Occurrence::Acknowledged { control, pgn, .. } => write_acknowledged(page, *control, *pgn),
        Occurrence::Unread { kind, .. } => write_unread(page, *kind),
        Occurrence::At { .. } | Occurrence::Message { .. } => {}
    }
}

fn write_message<W: Write>(page: &mut Page<W>, words: &PageWords<'_>, kind: Kind, brief: &Brief) {
    page.markup(kind_word(kind));
    page.markup(": ");
    write_brief(page, words, brief);
}

fn missed_words() -> &'static str {
    " frames missed: who holds which address is not known until units claim again"
}

fn write_unowned<W: Write>(page: &mut Page<W>, source: u8) {
    let before = "a diagnostic message from address ";
    write_count(
        page,
        before,
        u64::from(source),
        ", which nobody has claimed in what was read",
    );
}

fn write_unread<W: Write>(page: &mut Page<W>, kind: Kind) {
    write_between(page, "a ", kind_word(kind), " that could not be read");
}

fn write_held<W: Write>(
    page: &mut Page<W>,
    view: &View<'_>,
    address: u8,
    lost_by: &Option<DrawnUnit>,
) {
    write_count(page, "holds address ", u64::from(address), "");
    if let Some(unit) = lost_by {
        page.markup(", which was lost by ");
        write_unit(page, view, unit);
    }
}

/// An acknowledgment of a request (SAE J1939-21, 5.4.4).
fn write_acknowledged<W: Write>(page: &mut Page<W>, control: u8, pgn: u32) {
    write_count(page, control_words(control), u64::from(pgn), "");
}

fn control_words(control: u8) -> &'static str {
    match control {
        0 => "acknowledged a request of group ",
        1 => "refused a request of group ",
        2 => "denied access to group ",
        3 => "cannot respond now to a request of group ",
        _ => "answered in another way to a request of group ",
    }
}
