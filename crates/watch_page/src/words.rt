use crate::view::View;
use log_lines::ClockForm;
use picture::Axis;
use shop_texts::Texts;
use std::alloc::Global;

/// By what moments and codes are told: the clock of the page, and a shop's texts for codes.
#[derive(Clone, Copy)]
pub(crate) struct PageWords<'a> {
    pub(crate) alloc: Global,
    /// What moments are, and the first.
    pub(crate) axis: Axis,
    pub(crate) start: u64,
    /// How times are told.
    pub(crate) clock: ClockForm<'a>,
    pub(crate) texts: &'a Texts,
}

impl<'a> PageWords<'a> {
    /// Those of a page.
    pub(crate) fn of(view: &View<'a>) -> PageWords<'a> {
        PageWords {
            alloc: view.alloc,
            axis: view.picture.axis(),
            start: view.picture.start(),
            clock: view.clock,
            texts: view.texts,
        }
    }
}
