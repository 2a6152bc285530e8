//! A writer of an object that keeps in mind whether memory was refused, so that this is asked once at the end, and not after each
//! value.

use dm_messages::Trouble;
use dm_words::{put_code, put_lamps, put_number, put_trouble};
use json::{Writer, is_number};
use log_lines::LogFault;
use std::alloc::{AllocError, Global};
use trouble_code::{Dtc, Lamps};

/// Writes the values of a JSON object until memory is refused, and nothing from then on.
pub(crate) struct ObjectWriter {
    json: Writer,
    is_refused: bool,
}

impl ObjectWriter {
    /// An object without values.
    pub(crate) fn new(alloc: Global) -> ObjectWriter {
        let mut json = Writer::new(Vec::new(alloc));
        let is_refused = json.begin_object().is_err();
        ObjectWriter { json, is_refused }
    }

    /// Writes a number under its key.
    pub(crate) fn number(&mut self, key: &str, number: u64) {
        if !self.is_refused {
            self.is_refused = put_number(&mut self.json, key, number).is_err();
        }
    }

    /// Writes a text under its key.
    pub(crate) fn text(&mut self, key: &str, text: &str) {
        if !self.is_refused {
            self.is_refused = put_text(&mut self.json, key, text).is_err();
        }
    }

    /// Writes a text under its key, for which memory was asked.
    pub(crate) fn made_text(&mut self, key: &str, text: Result<String, AllocError>) {
        match text {
            Ok(text) => self.text(key, text.as_str()),
            Err(_) => self.refuse(),
        }
    }

    /// Writes that something holds.
    pub(crate) fn holds(&mut self, key: &str) {
        if !self.is_refused {
            self.is_refused = put_true(&mut self.json, key).is_err();
        }
    }

    /// Writes lamps.
    pub(crate) fn lamps(&mut self, alloc: Global, lamps: Lamps) {
        if !self.is_refused {
            self.is_refused = put_lamps(&mut self.json, alloc, lamps).is_err();
        }
    }

    /// Writes what of a message is not read.
    pub(crate) fn trouble(&mut self, trouble: Trouble) {
        if !self.is_refused {
            self.is_refused = put_trouble(&mut self.json, trouble).is_err();
        }
    }

    /// Writes a decimal under its key, for which memory was asked.
    pub(crate) fn decimal(&mut self, key: &str, text: Result<String, AllocError>) {
        match text {
            Ok(text) if !self.is_refused => {
                self.is_refused = put_decimal(&mut self.json, key, text.as_str()).is_err();
            }
            Ok(_) => {}
            Err(_) => self.refuse(),
        }
    }

    /// Begins a list under its key.
    pub(crate) fn begin_list(&mut self, key: &str) {
        if !self.is_refused {
            self.is_refused = begin_list(&mut self.json, key).is_err();
        }
    }

    /// Begins a list in a list.
    pub(crate) fn begin_inner_list(&mut self) {
        if !self.is_refused {
            self.is_refused = self.json.begin_array().is_err();
        }
    }

    /// Writes a text of the list, for which memory was asked.
    pub(crate) fn item(&mut self, text: Result<String, AllocError>) {
        match text {
            Ok(text) if !self.is_refused => {
                self.is_refused = self.json.string(text.as_str()).is_err();
            }
            Ok(_) => {}
            Err(_) => self.refuse(),
        }
    }

    /// Writes a code of the list, with its text where it has one.
    pub(crate) fn code(&mut self, code: Dtc, text: Option<&str>) {
        if !self.is_refused {
            self.is_refused = put_code(&mut self.json, code, text).is_err();
        }
    }

    /// Ends that list.
    pub(crate) fn end_list(&mut self) {
        if !self.is_refused {
            self.is_refused = self.json.end_array().is_err();
        }
    }

    /// Begins an object under its key.
    pub(crate) fn begin_object(&mut self, key: &str) {
        if !self.is_refused {
            self.is_refused = begin_object(&mut self.json, key).is_err();
        }
    }

    /// Begins an object in a list.
    pub(crate) fn begin_item(&mut self) {
        if !self.is_refused {
            self.is_refused = self.json.begin_object().is_err();
        }
    }

    /// Ends that object.
    pub(crate) fn end_object(&mut self) {
        if !self.is_refused {
            self.is_refused = self.json.end_object().is_err();
        }
    }

    /// Keeps in mind that memory was refused for a value.
    pub(crate) fn refuse(&mut self) {
        self.is_refused = true;
    }

    /// The whole object. No object is let go without this, so that no refusal is forgotten.
    ///
    /// # Errors
    /// - `Memory`: memory was refused.
    pub(crate) fn end(self) -> Result<Vec<u8>, LogFault> {
        let ObjectWriter { json, is_refused } = self;
        let mut json = json;
        if is_refused || json.end_object().is_err() {
            return Err(LogFault::Memory);
        }
        Ok(json.into_inner())
    }
}

/// Writes a key and its text.
fn put_text(json: &mut Writer, key: &str, text: &str) -> Result<(), AllocError> {
    json.key(key)?;
    json.string(text)
}

/// Writes a key and a number of these digits.
fn put_decimal(json: &mut Writer, key: &str, digits: &str) -> Result<(), AllocError> {
    json.key(key)?;
    if is_number(digits) {
        json.number(digits)
    } else {
        json.string(digits)
    }
}

/// Writes a key, and that something holds.
fn put_true(json: &mut Writer, key: &str) -> Result<(), AllocError> {
    json.key(key)?;
    json.boolean(true)
}

/// Writes a key, and begins the list that stands under it.
fn begin_list(json: &mut Writer, key: &str) -> Result<(), AllocError> {
    json.key(key)?;
    json.begin_array()
}

/// Writes a key, and begins the object that stands under it.
fn begin_object(json: &mut Writer, key: &str) -> Result<(), AllocError> {
    json.key(key)?;
    json.begin_object()
}
