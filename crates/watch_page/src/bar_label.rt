//! The words in a bar: each code is whole or not there, in whatever width the page is shown.

use crate::message_words::write_numbers;
use crate::pieces::write_count;
use picture::Brief;
use safe_text::Page;
use std::io::Write;

/// The words in a bar.
#[derive(Clone, Copy)]
pub(crate) struct BarLabel<'a> {
    /// What stands before: the kind of message and a space, or nothing.
    pub(crate) before: &'static str,
    pub(crate) told: LabelTold<'a>,
}

/// What the words in a bar tell.
#[derive(Clone, Copy)]
pub(crate) enum LabelTold<'a> {
    Word(&'static str),
    /// A number, and a word before or behind it.
    Count(&'static str, u64, &'static str),
    /// The codes of a message.
    Codes(&'a Brief),
}

/// A width of the page for which words are chosen.
#[derive(Clone, Copy)]
struct PageWidth {
    /// How many pixels a lane has then at least.
    pixels: u64,
    /// The attribute of words for this width alone.
    class: &'static str,
}

/// The widths: a page of 1,180 pixels and more, of 800 and more, and a telephone, each with the bar by which a browser scrolls.
const WIDTHS: [PageWidth; 3] = [
    PageWidth {
        pixels: 1_128,
        class: " class=\"wide\"",
    },
    PageWidth {
        pixels: 748,
        class: " class=\"middle\"",
    },
    PageWidth {
        pixels: 322,
        class: " class=\"narrow\"",
    },
];

/// How many pixels stand before the words, and how many a character takes at most.
const MARGIN: u64 = 4;

const CHARACTER: u64 = 7;

/// How many characters the mark for more takes, and with the space before it.
const MARK: u64 = 2;

const SPACED_MARK: u64 = 3;

impl BarLabel<'_> {
    /// How many pieces it has.
    fn pieces(&self) -> usize {
        match self.told {
            LabelTold::Codes(brief) => {
                let more = usize::from(brief.left_out() > 0);
                brief.listed().saturating_add(more)
            }
            _ => 1,
        }
    }

    /// How many characters the piece at a place takes.
    fn length_at(&self, place: usize) -> u64 {
        match self.told {
            LabelTold::Word(word) => word.len() as u64,
            LabelTold::Count(before, count, behind) => {
                (before.len() as u64)
                    .saturating_add(digits_of(count))
                    .saturating_add(behind.len() as u64)
            }
            LabelTold::Codes(brief) => code_length(brief, place),
        }
    }

    /// How many characters the first pieces take, with what stands before and a space between.
    fn length_of(&self, pieces: usize) -> u64 {
        let mut length = self.before.len() as u64;
        for place in 0..pieces {
            length = length.saturating_add(self.length_at(place));
        }
        length.saturating_add(pieces.saturating_sub(1) as u64)
    }

    /// How many pieces there is room for, with the mark for more where that is not all. None where there is room for nothing.
    fn fit(&self, room: u64) -> Option<usize> {
        let all = self.pieces();
        if self.length_of(all) <= room {
            return Some(all);
        }
        match self.told {
            LabelTold::Codes(_) => self.fit_codes(room, all),
            _ => None,
        }
    }

    /// How many of the codes there is room for, that are not all.
    fn fit_codes(&self, room: u64, all: usize) -> Option<usize> {
        if self.length_of(0).saturating_add(MARK) > room {
            return None;
        }
        let mut fitting = 0;
        for pieces in 1..all {
            if self.length_of(pieces).saturating_add(SPACED_MARK) <= room {
                fitting = pieces;
            }
        }
        Some(fitting)
    }

    /// Writes it into a bar of this width in hundredths of a percent. `at` are the attributes of the text, and end its tag.
    pub(crate) fn write<W: Write>(&self, page: &mut Page<W>, at: &'static str, width: u64) {
        let [wide, middle, narrow] = WIDTHS;
        let fits = [
            self.fit(room_in(width, wide)),
            self.fit(room_in(width, middle)),
            self.fit(room_in(width, narrow)),
        ];
        if fits[0] == fits[2] {
            self.write_fitting(page, "", at, fits[0]);
            return;
        }
        for place in 0..3 {
            self.write_fitting(page, WIDTHS[place].class, at, fits[place]);
        }
    }

    /// Writes so many pieces, where there is room for any.
    fn write_fitting<W: Write>(
        &self,
        page: &mut Page<W>,
        class: &'static str,
        at: &'static str,
        fitting: Option<usize>,
    ) {
        if let Some(pieces) = fitting {
            page.markup("<text");
            page.markup(class);
            page.markup(at);
            page.markup(self.before);
            self.write_pieces(page, pieces);
            page.markup("</text>");
        }
    }

    fn write_pieces<W: Write>(&self, page: &mut Page<W>, pieces: usize) {
        for place in 0..pieces {
            page.markup(if place > 0 { " " } else { "" });
            self.write_piece(page, place);
        }
        if pieces < self.pieces() {
            page.markup(if pieces > 0 { " .." } else { ".." });
        }
    }

    fn write_piece<W: Write>(&self, page: &mut Page<W>, place: usize) {
        match self.told {
            LabelTold::Word(word) => page.markup(word),
            LabelTold::Count(before, count, behind) => write_count(page, before, count, behind),
            LabelTold::Codes(brief) => match brief.code(place) {
                Some(code) => write_numbers(page, code.spn(), code.fmi()),
                None => write_count(page, "+", brief.left_out() as u64, ""),
            },
        }
    }
}

/// How many characters the code at a place takes, or the number of those that are left out.
fn code_length(brief: &Brief, place: usize) -> u64 {
    match brief.code(place) {
        Some(code) => digits_of(u64::from(code.spn()))
            .saturating_add(1)
            .saturating_add(digits_of(u64::from(code.fmi()))),
        None => digits_of(brief.left_out() as u64).saturating_add(1),
    }
}

/// How many characters there is room for in a bar.
fn room_in(width: u64, page: PageWidth) -> u64 {
    width
        .saturating_mul(page.pixels)
        .saturating_div(10_000)
        .saturating_sub(MARGIN)
        / CHARACTER
}

/// How many digits a number has.
fn digits_of(number: u64) -> u64 {
    let mut digits = 1u64;
    let mut rest = number / 10;
    for _ in 0..19 {
        if rest > 0 {
            digits = digits.saturating_add(1);
            rest /= 10;
        }
    }
    digits
}
