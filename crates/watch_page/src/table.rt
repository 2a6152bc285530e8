use crate::ever_cell::write_ever;
use crate::identifications::write_identifications;
use crate::labels::{write_fields, write_identity, write_label};
use crate::message_words::{
    LAMPS, flash_word, is_on, lamp_class, lamp_word, no_code_words, write_meaning, write_numbers,
    write_seen,
};
use crate::moment::write_moment;
use crate::pieces::{write_between, write_count};
use crate::silence::write_silence;
use crate::standing::{ALL_ORDERS, Standing};
use crate::unit_list::{Listed, Presence};
use crate::view::View;
use crate::words::PageWords;
use bus_watch::{EntryRun, Watch, Who};
use candump_line::Time;
use dm_messages::{Kind, Trouble};
use dm_words::unread_parts;
use log_lines::Fraction;
use name_field::Name;
use picture::{DrawnUnit, Sender};
use safe_text::Page;
use std::io::Write;
use trouble_code::{Dtc, LampName, Lamps};

/// How large the page may be when a further unit is begun, in bytes, and how many units are listed at most.
const ROOM: u64 = 2_000_000;

const MOST: u64 = 1_000;

/// How many codes of a message are listed.
const CODES: usize = 20;

/// Writes a row for each unit, the worst on the bus first; of very many the first, and how many further ones there are.
pub(crate) fn write_table<W: Write>(
    page: &mut Page<W>,
    view: &View<'_>,
    words: &PageWords<'_>,
    standing: &Standing,
) {
    page.markup("<h2>Units, at the end and ever in this log</h2>\n");
    write_anew(page, view.anew_at);
    page.markup(head());
    let written = write_units(page, view, words, standing);
    write_more(page, standing.all.saturating_sub(written));
    page.markup("</tbody></table>\n");
}

/// From which line on the table is.
fn write_anew<W: Write>(page: &mut Page<W>, anew_at: Option<u64>) {
    if let Some(line) = anew_at {
        let behind = " on. What is told of ever in this log is of all of it.</p>\n";
        write_count(page, anew_words(), line, behind);
    }
}

fn write_more<W: Write>(page: &mut Page<W>, more: u64) {
    if more > 0 {
        write_count(page, more_row(), more, " more units</td></tr>\n");
    }
}

fn more_row() -> &'static str {
    "<tr role=\"row\"><td role=\"cell\" colspan=\"8\">and "
}

/// Writes rows as long as the page has room. Answers how many.
fn write_units<W: Write>(
    page: &mut Page<W>,
    view: &View<'_>,
    words: &PageWords<'_>,
    standing: &Standing,
) -> u64 {
    let mut written = 0u64;
    for order in 0..ALL_ORDERS {
        written = write_order(page, view, words, standing, order, written);
    }
    written
}

/// Writes the rows of one order behind so many others. Answers how many these are together.
fn write_order<W: Write>(
    page: &mut Page<W>,
    view: &View<'_>,
    words: &PageWords<'_>,
    standing: &Standing,
    order: usize,
    before: u64,
) -> u64 {
    let mut written = before;
    for listed in standing.listed() {
        if listed.order == order && written < MOST && page.has_room(ROOM) {
            write_unit(page, view, words, listed);
            written = written.saturating_add(1);
        }
    }
    written
}

fn anew_words() -> &'static str {
    "<p class=\"doubt\">More was told than is kept at once (--most, --keep): this table is of what came from line "
}

/// The head of the table. Its roles stay where a narrow page shows a row as a block.
fn head() -> &'static str {
    "<table role=\"table\"><thead role=\"rowgroup\"><tr role=\"row\">\
<th role=\"columnheader\">Unit</th><th role=\"columnheader\" class=\"num\">Address</th><th role=\"columnheader\">Lamps at the end</th>\
<th role=\"columnheader\">Faults at the end</th><th role=\"columnheader\">Ever in this log</th><th role=\"columnheader\" class=\"num\">DM1</th><th role=\"columnheader\" class=\"num\">DM2</th>\
<th role=\"columnheader\" class=\"num\">DM6</th></tr></thead><tbody role=\"rowgroup\">\n"
}

fn write_unit<W: Write>(
    page: &mut Page<W>,
    view: &View<'_>,
    words: &PageWords<'_>,
    listed: &Listed,
) {
    if let Some((watch, who)) = view.watched(&listed.unit) {
        page.markup(row_begin(listed.presence));
        write_who(page, view, &listed.unit);
        write_told(page, view, words, watch, &who, listed);
        page.markup("</tr>\n");
    }
}

fn row_begin(presence: Presence) -> &'static str {
    match presence {
        Presence::Gone | Presence::Past => "<tr role=\"row\" class=\"gone\">",
        _ => "<tr role=\"row\">",
    }
}

/// What a unit told: its address, its lamps, its faults, at the end and at any time, and how many messages of each kind there were.
fn write_told<W: Write>(
    page: &mut Page<W>,
    view: &View<'_>,
    words: &PageWords<'_>,
    watch: &Watch,
    who: &Who,
    listed: &Listed,
) {
    write_address(page, address_of(watch, &listed.unit), listed.presence);
    let newest = watch.runs(*who, Kind::Dm1).last();
    let silence = view.ever.silence(&listed.unit);
    write_lamps(page, newest, silence);
    write_faults(page, words, watch, who, listed.presence, silence);
    write_ever(page, view, words, &listed.unit);
    write_entries(page, watch.entries(*who, Kind::Dm1), "DM1");
    write_entries(page, watch.entries(*who, Kind::Dm2), "DM2");
    write_entries(page, watch.entries(*who, Kind::Dm6), "DM6");
}

/// The faults that a unit told last, and whether it is gone.
fn write_faults<W: Write>(
    page: &mut Page<W>,
    words: &PageWords<'_>,
    watch: &Watch,
    who: &Who,
    presence: Presence,
    silence: Option<u64>,
) {
    let newest = watch.runs(*who, Kind::Dm1).last();
    page.markup("<td role=\"cell\" data-l=\"Faults at the end\">");
    if let Some(silence) = silence {
        write_silence(page, words, silence);
    }
    write_newest(page, words, newest);
    write_others(page, words, watch, who);
    write_standing(page, words, presence, newest);
    page.markup("</td>");
}

/// The codes of the newest DM2 and DM6.
fn write_others<W: Write>(page: &mut Page<W>, words: &PageWords<'_>, watch: &Watch, who: &Who) {
    write_other(
        page,
        words,
        "DM2, previously active: ",
        watch.runs(*who, Kind::Dm2).last(),
    );
    write_other(
        page,
        words,
        "DM6, pending: ",
        watch.runs(*who, Kind::Dm6).last(),
    );
}

/// How many messages of a kind there were.
fn write_entries<W: Write>(page: &mut Page<W>, count: u64, word: &'static str) {
    write_between(
        page,
        "<td role=\"cell\" class=\"num\" data-l=\"",
        word,
        "\">",
    );
    write_count(page, "", count, "</td>");
}

/// What a unit is called, and what its NAME says.
fn write_who<W: Write>(page: &mut Page<W>, view: &View<'_>, unit: &DrawnUnit) {
    page.markup("<td role=\"cell\"><b class=\"text\">");
    write_label(page, view.units, unit);
    page.markup("</b><div class=\"name\">");
    write_identity(page, view, unit);
    page.markup("</div><div class=\"quiet\">");
    write_fields(page, view.alloc, unit);
    page.markup("</div>");
    write_identifications(page, view, unit);
    page.markup("</td>");
}

fn write_address<W: Write>(page: &mut Page<W>, address: Option<u8>, presence: Presence) {
    page.markup("<td role=\"cell\" class=\"num\" data-l=\"Address\">");
    match address {
        Some(address) => page.number(u64::from(address)),
        None => page.markup(no_address_words(presence)),
    }
    page.markup("</td>");
}

fn no_address_words(presence: Presence) -> &'static str {
    match presence {
        Presence::Unknown => "not known",
        _ => "none",
    }
}

fn address_of(watch: &Watch, unit: &DrawnUnit) -> Option<u8> {
    match unit.sender {
        Sender::Named(name) => match watch.row(Name::from_number(name)) {
            Some(row) => row.address,
            None => None,
        },
        Sender::Unclaimed { address, .. } => Some(address),
    }
}

/// A plate for each lamp that is on; a word where that is not current.
fn write_lamps<W: Write>(page: &mut Page<W>, newest: Option<&EntryRun>, silence: Option<u64>) {
    page.markup("<td role=\"cell\" data-l=\"Lamps at the end\">");
    if let Some(run) = newest {
        if silence.is_some() {
            page.markup("<span class=\"quiet\">not known</span>");
        } else {
            write_plates(page, run.shown.lamps);
        }
    }
    page.markup("</td>");
}

fn write_plates<W: Write>(page: &mut Page<W>, lamps: Lamps) {
    for lamp in LAMPS {
        if is_on(lamps, lamp) {
            write_plate(page, lamp);
            page.markup(flash_word(lamps, lamp));
        }
    }
}

fn write_plate<W: Write>(page: &mut Page<W>, lamp: LampName) {
    write_between(page, "<span class=\"lamp ", lamp_class(lamp), "\">");
    write_between(page, "", lamp_word(lamp), "</span>");
}

/// The codes of the newest DM1, or that there is none.
fn write_newest<W: Write>(page: &mut Page<W>, words: &PageWords<'_>, newest: Option<&EntryRun>) {
    match newest {
        Some(run) => write_active(page, words, run),
        None => page.markup("<span class=\"quiet\">sent no DM1</span>"),
    }
}

fn write_active<W: Write>(page: &mut Page<W>, words: &PageWords<'_>, run: &EntryRun) {
    let codes = run.shown.codes.as_slice();
    if codes.is_empty() {
        page.markup(no_active_words(run.trouble.is_some()));
    }
    write_codes(page, words, codes);
    if run.contested {
        page.markup(doubt_words());
    }
    if let Some(trouble) = run.trouble {
        write_trouble(page, trouble);
    }
}

/// What of a message is not read, and what is read by an older conversion method.
fn write_trouble<W: Write>(page: &mut Page<W>, trouble: Trouble) {
    page.markup("<div class=\"doubt\">read in part");
    let mut mark = "; not read: ";
    for (count, word, rest) in unread_parts(trouble) {
        if count > 0 {
            write_counted(page, mark, count, word);
            page.markup(rest);
            mark = ", ";
        }
    }
    if trouble.missing > 0 {
        write_count(
            page,
            "; ",
            u64::from(trouble.missing),
            " of 8 bytes missing",
        );
    }
    if trouble.converted > 0 {
        write_counted(page, "; ", u64::from(trouble.converted), "code");
        page.markup(" by an older conversion method");
    }
    page.markup("</div>");
}

/// A number and its word, with an `s` behind where it is not 1.
fn write_counted<W: Write>(
    page: &mut Page<W>,
    before: &'static str,
    count: u64,
    word: &'static str,
) {
    write_count(page, before, count, " ");
    page.markup(word);
    page.markup(if count == 1 { "" } else { "s" });
}

/// That there is no code; or where some of the message is not read, that none is known.
fn no_active_words(partly: bool) -> &'static str {
    if partly {
        "<span class=\"quiet\">no readable code</span>"
    } else {
        "<span class=\"fine\">no active code</span>"
    }
}

fn doubt_words() -> &'static str {
    "<div class=\"doubt\">in doubt: sent less than 250 ms after another unit lost this address, so it may be of that one</div>"
}

fn write_codes<W: Write>(page: &mut Page<W>, words: &PageWords<'_>, codes: &[Dtc]) {
    for code in listed_of(codes) {
        write_code(page, words, *code);
    }
    if codes.len() > CODES {
        write_count(
            page,
            "<div>and ",
            (codes.len() - CODES) as u64,
            " more codes</div>",
        );
    }
}

/// The codes that are listed: the first.
fn listed_of(codes: &[Dtc]) -> &[Dtc] {
    match codes.get(..CODES) {
        Some(first) => first,
        None => codes,
    }
}

fn write_code<W: Write>(page: &mut Page<W>, words: &PageWords<'_>, code: Dtc) {
    write_count(page, "<div><b>SPN ", u64::from(code.spn()), " FMI ");
    write_count(
        page,
        "",
        u64::from(code.fmi()),
        "</b> <span class=\"text\">",
    );
    write_meaning(page, words, "", code.spn(), code.fmi());
    page.markup("</span><span class=\"quiet\">");
    write_seen(page, code);
    page.markup("</span></div>");
}

/// The codes of the newest of some equal messages in a line, where there are such.
fn write_other<W: Write>(
    page: &mut Page<W>,
    words: &PageWords<'_>,
    before: &'static str,
    newest: Option<&EntryRun>,
) {
    if let Some(run) = newest {
        write_listed(page, words, before, run);
        if let Some(trouble) = run.trouble {
            write_trouble(page, trouble);
        }
    }
}

/// Writes codes in a line.
fn write_listed<W: Write>(
    page: &mut Page<W>,
    words: &PageWords<'_>,
    before: &'static str,
    run: &EntryRun,
) {
    page.markup("<div class=\"past\">");
    page.markup(before);
    if run.shown.codes.as_slice().is_empty() {
        page.markup(no_code_words(run.trouble.is_some()));
    }
    write_line(page, words, run.shown.codes.as_slice());
    page.markup("</div>");
}

fn write_line<W: Write>(page: &mut Page<W>, words: &PageWords<'_>, codes: &[Dtc]) {
    let mut between = "";
    for code in listed_of(codes) {
        page.markup(between);
        write_in_line(page, words, *code);
        between = ", ";
    }
    if codes.len() > CODES {
        page.markup(" and more");
    }
}

fn write_in_line<W: Write>(page: &mut Page<W>, words: &PageWords<'_>, code: Dtc) {
    write_numbers(page, code.spn(), code.fmi());
    write_meaning(page, words, " ", code.spn(), code.fmi());
}

/// That a unit is gone, or not known.
fn write_standing<W: Write>(
    page: &mut Page<W>,
    words: &PageWords<'_>,
    presence: Presence,
    newest: Option<&EntryRun>,
) {
    if presence == Presence::On {
        return;
    }
    write_between(page, "<div class=\"past\">", presence_words(presence), "");
    if let Some(run) = newest {
        write_last(page, words, run.last);
    }
    page.markup("</div>");
}

fn write_last<W: Write>(page: &mut Page<W>, words: &PageWords<'_>, last: Option<Time>) {
    if let Some(last) = last {
        page.markup("; last DM1 ");
        write_moment(page, words, last.micros(), Fraction::Seconds);
    }
}

fn presence_words(presence: Presence) -> &'static str {
    match presence {
        Presence::On => "",
        Presence::Gone => "gone: it holds no address any more",
        Presence::Past => "earlier: frames were missed since, or somebody claimed this address",
        Presence::Unknown => {
            "frames were missed since it was heard, and it has not claimed an address again"
        }
    }
}
