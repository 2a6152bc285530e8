ghost use Rattle.std.specs.Prelude.{◌≡◌, [], ◌∷◌, ◌++◌, IfSome, IfNone, OnOk, OnErr};
ghost use Rattle.shop_texts.specs.Exact.{IsPlaceOf, IsTextOf, NoneFits};

use crate::unit_key::UnitKey;
use crate::unit_row::UnitRow;
use crate::unit_words::UnitWords;
use indexmap::IndexMap;
use name_field::Name;
use std::alloc::{AllocError, Global};
use std::marker::Model;

/// A shop's texts for units, seen as their rows in the order of the file.
///
/// A row is found by what it gives, in 32 steps at most, however many rows there are.
#[derive(Drop)]
pub struct UnitTexts {
    rows: Vec<UnitRow>,
    /// The place of the last row that gives this.
    index: IndexMap<UnitKey, usize>,
}

impl Model for UnitTexts {
    ghost use Rattle.std.specs.Prelude.{List};
    ghost use Rattle.shop_texts.specs.Index.{IsIndexed};
    ghost use Rattle.shop_texts.specs.declared.unit_row.UnitRow.{UnitRow};

    ghost Value = { List UnitRow };

    ghost view = { λ t. t.rows.items };

    ghost invariant = { λ t. IsIndexed t.rows.items t.index };
}

impl UnitTexts {
    /// No texts.
    pub fn new(alloc: Global) -> UnitTexts
        ensures { result ≡ [] }
    {
        UnitTexts {
            rows: Vec::new(alloc),
            index: IndexMap::new(alloc),
        }
    }

    /// Adds a text behind all others.
    ///
    /// # Errors
    /// Memory was refused; nothing is changed.
    pub fn add(&mut self, row: UnitRow) -> Result<(), AllocError>
        ensures ok { OnOk result (self.new ≡ self.old ++ row ∷ []) }
        ensures err { OnErr result (self.new ≡ self.old) }
    {
        let (place, key) = (self.rows.len(), UnitKey::of(&row));
        self.rows.reserve(1)?;
        self.index.insert(key, place)?;
        self.rows.push_reserved(row);
        Ok(())
    }

    /// The text of a unit: that of the most exact row that is for it, and of equally exact ones that of the last; none where no row
    /// is for it.
    ///
    /// A NAME is more exact than all else together, a function more than what stands behind it, and so on: industry group, vehicle
    /// system, manufacturer.
    #[tactic(auto, using(crate::proofs::Exact::text_found))]
    pub fn text_of(&self, name: Name) -> Option<&str>
        ensures found { IfSome result (λ text. IsTextOf self.entry.now name text.now) }
        ensures none { IfNone result (NoneFits self.entry.now name) }
    {
        match self.place_of(name) {
            Some(place) => Some(self.rows[place].text.as_str()),
            None => None,
        }
    }

    /// A unit in words: its text, or what its NAME says of it.
    pub fn words_of(&self, name: Name) -> UnitWords<'_> {
        UnitWords {
            name,
            text: self.text_of(name),
        }
    }

    /// The place of the most exact row for a unit: rows that give more are looked for first.
    #[tactic(auto, using(crate::proofs::Index::at_most_31))]
    fn place_of(&self, name: Name) -> Option<usize>
        ensures found { IfSome result (λ place. IsPlaceOf self.now name place) }
        ensures none { IfNone result (NoneFits self.now name) }
    {
        for less in 0..32u8 {
            let key = UnitKey::of_unit(name, 31 - less);
            if let Some(place) = self.index.get(&key) {
                return Some(*place);
            }
        }
        None
    }
}
