use crate::code_reading::{Numbers, Values};
use dm_words::failure_mode_words;
use indexmap::IndexMap;
use safe_text::Seen;
use std::alloc::{AllocError, Global};
use std::fmt;
use trouble_code::Dtc;

/// The texts of a shop for SPNs, for FMIs, and for both together.
#[derive(Drop)]
pub struct Texts {
    spns: Numbered,
    fmis: Numbered,
    codes: Numbered,
}

/// A text for each of some numbers.
#[derive(Drop)]
struct Numbered {
    texts: IndexMap<u64, String>,
}

impl Numbered {
    fn new(alloc: Global) -> Numbered {
        Numbered {
            texts: IndexMap::new(alloc),
        }
    }

    /// The text of a number becomes this one.
    fn put(&mut self, number: u64, text: String) -> Result<(), AllocError> {
        self.texts.insert(number, text)?;
        Ok(())
    }

    fn get(&self, number: u64) -> Option<&str> {
        match self.texts.get(&number) {
            Some(text) => Some(text.as_str()),
            None => None,
        }
    }
}

/// One key for both numbers of a code.
fn key(spn: u32, fmi: u32) -> u64 {
    u64::from(spn) * 65_536 + u64::from(fmi)
}

impl Texts {
    /// No texts.
    pub fn new(alloc: Global) -> Texts {
        Texts {
            spns: Numbered::new(alloc),
            fmis: Numbered::new(alloc),
            codes: Numbered::new(alloc),
        }
    }

    /// Adds the text of a row.
    pub(crate) fn add(&mut self, alloc: Global, values: Values<'_>) -> Result<(), AllocError> {
        let text = String::from_str(alloc, values.text)?;
        match values.numbers {
            Numbers::Both { spn, fmi } => self.codes.put(key(spn, fmi), text),
            Numbers::Spn(spn) => self.spns.put(u64::from(spn), text),
            Numbers::Fmi(fmi) => self.fmis.put(u64::from(fmi), text),
        }
    }

    /// The text of a code: its own, or that of its SPN and that of its FMI with a comma between, as far as there are any.
    ///
    /// # Errors
    /// Memory was refused.
    pub fn text_of(&self, alloc: Global, spn: u32, fmi: u8) -> Result<Option<String>, AllocError> {
        if let Some(text) = self.codes.get(key(spn, u32::from(fmi))) {
            return copied(alloc, text);
        }
        match (self.spns.get(u64::from(spn)), self.fmis.get(u64::from(fmi))) {
            (Some(spn), Some(fmi)) => joined(alloc, spn, fmi),
            (Some(text), None) | (None, Some(text)) => copied(alloc, text),
            (None, None) => Ok(None),
        }
    }
}

/// What codes mean, as people read it behind these: ` (190/2: Engine speed, erratic)` for each, by the shop's text, or else by what its
/// FMI says. No terminal obeys a text: what is hidden of it stands by its number.
#[derive(Clone, Copy)]
pub struct TextWords<'a> {
    pub texts: &'a Texts,
    pub codes: &'a [Dtc],
}

impl fmt::Display for TextWords<'_> {
    fn fmt<W: fmt::Write>(&self, f: &mut fmt::Formatter<W>) -> fmt::Result {
        for code in self.codes {
            self.texts.write_text(f, *code)?;
        }
        Ok(())
    }
}

impl Texts {
    /// The text of a code: its own, or that of its SPN, or of its FMI; and that of its FMI, where both have one.
    pub fn parts_of(&self, spn: u32, fmi: u8) -> Option<(&str, Option<&str>)> {
        if let Some(text) = self.codes.get(key(spn, u32::from(fmi))) {
            return Some((text, None));
        }
        match (self.spns.get(u64::from(spn)), self.fmis.get(u64::from(fmi))) {
            (Some(text), more) => Some((text, more)),
            (None, Some(text)) => Some((text, None)),
            (None, None) => None,
        }
    }

    /// Writes the text of a code in parentheses, or what its FMI says.
    fn write_text<W: fmt::Write>(&self, f: &mut fmt::Formatter<W>, code: Dtc) -> fmt::Result {
        let (spn, fmi) = (code.spn(), code.fmi());
        match self.parts_of(spn, fmi) {
            Some((text, Some(more))) => {
                let (text, more) = (Seen::line(text), Seen::line(more));
                write!(f, " ({spn}/{fmi}: {text}, {more})")
            }
            Some((text, None)) => {
                let text = Seen::line(text);
                write!(f, " ({spn}/{fmi}: {text})")
            }
            None => {
                let mode = failure_mode_words(fmi);
                write!(f, " ({spn}/{fmi}: {mode})")
            }
        }
    }
}

fn copied(alloc: Global, text: &str) -> Result<Option<String>, AllocError> {
    Ok(Some(String::from_str(alloc, text)?))
}

fn joined(alloc: Global, spn: &str, fmi: &str) -> Result<Option<String>, AllocError> {
    Ok(Some(format!(in alloc; "{spn}, {fmi}")?))
}
