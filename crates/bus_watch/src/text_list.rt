ghost use Rattle.std.specs.Prelude.{◌≡◌, [], None, Some, length, slice_get, IfOk};
ghost use Rattle.std.specs.List.{position};
ghost use Rattle.bus_watch.specs.Identified.{first_unit, is_place, is_text_by, is_text_of, teller_there, text_under, with_text, with_text_at, with_told};

use crate::teller::{Teller, is_same_who};
use crate::told_text::ToldText;
use listener::Who;
use std::alloc::{AllocError, Global};
use std::marker::Model;

/// How many texts are kept: of each identification as many as a bus has addresses.
const MOST_TEXTS: usize = 1024;

/// The text of an identification.
#[derive(Drop)]
pub(crate) struct UnitText {
    pub(crate) teller: Teller,
    pub(crate) text: ToldText,
}

/// The text of each identification that each unit told, in the order of the first ones. It has all the memory that it will need.
#[derive(Drop)]
pub(crate) struct TextList {
    units: Vec<UnitText>,
}

impl Model for TextList {
    ghost use Rattle.std.specs.Prelude.{◌≤◌, List, vec_capacity};
    ghost use Rattle.bus_watch.specs.declared.text_list.TheConstants.{MOST_TEXTS};
    ghost use Rattle.bus_watch.specs.declared.text_list.UnitText.{UnitText};

    ghost Value = { List UnitText };

    ghost view = { λ l. l.units.items };

    ghost invariant = { λ l. MOST_TEXTS ≤ vec_capacity l.units };
}

impl TextList {
    /// Of no unit.
    pub(crate) fn new(alloc: Global) -> Result<TextList, AllocError>
        ensures { IfOk result (λ l. l ≡ []) }
    {
        Ok(TextList {
            units: Vec::with_capacity(alloc, MOST_TEXTS)?,
        })
    }

    /// How many texts.
    pub(crate) fn len(&self) -> usize
        ensures { result ≡ length self.now }
    {
        self.units.len()
    }

    /// Whose the text at this place is, from 0, and of which identification.
    pub(crate) fn teller_at(&self, place: usize) -> Option<Teller>
        ensures { result ≡ teller_there (slice_get self.now place) }
    {
        match self.units.get(place) {
            Some(unit) => Some(unit.teller),
            None => None,
        }
    }

    /// The unit of the text at this place, where none before is of that unit.
    pub(crate) fn first_unit_at(&self, place: usize) -> Option<Who>
        ensures { result ≡ first_unit place (slice_get self.now place) self.now }
    {
        let unit = self.units.get(place)?;
        if self.is_first(&unit.teller.who, place) {
            Some(unit.teller.who)
        } else {
            None
        }
    }

    /// Whether the first text of a unit stands at this place.
    fn is_first(&self, who: &Who, place: usize) -> bool
        ensures { result ≡ is_place (position (is_text_by who.now) self.now) place }
    {
        match self.place_of_unit(who) {
            Some(first) => first == place,
            None => false,
        }
    }

    /// Where the first text of a unit stands.
    fn place_of_unit(&self, who: &Who) -> Option<usize>
        ensures { result ≡ position (is_text_by who.now) self.now }
    {
        self.units
            .as_slice()
            .iter()
            .position(|one| is_text_by(one, who))
    }

    /// The text of a unit's identification, empty where it told none.
    pub(crate) fn of(&self, teller: &Teller) -> &[u8]
        ensures { result.now ≡ text_under teller.now self.now }
    {
        let Some(place) = self.place_of(teller) else {
            return &[];
        };
        match self.units.get(place) {
            Some(unit) => unit.text.bytes(),
            None => &[],
        }
    }

    /// Keeps a text, if it has characters, in the place of the one before. Tells whether that was another one.
    pub(crate) fn tell(&mut self, unit: UnitText) -> bool
        ensures { self.new ≡ with_told unit.teller unit.text self.old }
    {
        if unit.text.is_empty() {
            return false;
        }
        let is_news = self.is_news(&unit);
        self.put(unit);
        is_news
    }

    /// Whether the unit did not tell this text last.
    fn is_news(&self, unit: &UnitText) -> bool {
        self.of(&unit.teller) != unit.text.bytes()
    }

    /// Keeps a text.
    fn put(&mut self, unit: UnitText)
        ensures { self.new ≡ with_text unit.teller unit.text self.old }
    {
        match self.place_of(&unit.teller) {
            Some(place) => self.put_at(place, unit),
            None => self.push(unit),
        }
    }

    /// Keeps a text at a place.
    fn put_at(&mut self, place: usize, unit: UnitText)
        ensures { self.new ≡ with_text_at (Some place) unit.teller unit.text self.old }
    {
        if place < self.units.len() {
            self.units[place] = unit;
        }
    }

    /// Keeps a text behind the others, where there is room.
    fn push(&mut self, unit: UnitText)
        ensures { self.new ≡ with_text_at None unit.teller unit.text self.old }
    {
        if self.units.len() < MOST_TEXTS {
            self.units.push_reserved(unit);
        }
    }

    /// Where the text of a unit's identification stands.
    fn place_of(&self, teller: &Teller) -> Option<usize>
        ensures { result ≡ position (is_text_of teller.now) self.now }
    {
        self.units
            .as_slice()
            .iter()
            .position(|one| is_text_of(one, teller))
    }
}

/// Whether a text is that of this unit and identification.
fn is_text_of(one: &UnitText, teller: &Teller) -> bool
    ensures { result ≡ is_text_of teller.now one.now }
{
    one.teller.is(teller)
}

/// Whether a text is of this unit.
fn is_text_by(one: &UnitText, who: &Who) -> bool
    ensures { result ≡ is_text_by who.now one.now }
{
    is_same_who(&one.teller.who, who)
}
