//! Text from outside as it is shown, so that no terminal obeys it and no reader is misled by it.
ghost use Rattle.std.specs.Prelude.{◌≡◌, ℕ, ◌<◌, List, false, true};
ghost use Rattle.std.specs.List.{list_all};
ghost use Rattle.std.specs.Str.{NoCharPasses};
ghost use Rattle.safe_text.specs.Seen.{is_hidden, is_hidden_in, is_plain, is_short, seen};
ghost use Rattle.safe_text.specs.declared.seen.SeenForm.{SeenForm as AnyForm};

use std::io::Write;
use std::{fmt, io};

/// Where text from outside is shown.
#[derive(Clone, Copy, PartialEq, Eq)]
pub enum SeenForm {
    /// In a line for people: a hidden character stands as `\x1B`, or from U+0100 on as `\u202E`.
    Line,
    /// As lines for people: the same, but line feeds stay.
    Lines,
    /// Between the quotes of JSON: a hidden character stands as `\u001b`.
    Json,
}

/// Text from outside, as it is shown: each hidden character is written by its number, and all else stands as it is.
///
/// Hidden are the control characters of ASCII (U+0000 to U+001F, U+007F) and those behind it (U+0080 to U+009F), which a terminal
/// obeys, and the marks that turn the direction of text (U+061C, U+200E, U+200F, U+202A to U+202E, U+2066 to U+2069).
#[derive(Clone, Copy)]
pub struct Seen<'a> {
    text: &'a str,
    form: SeenForm,
}

impl<'a> Seen<'a> {
    /// A text in a line for people.
    pub fn line(text: &'a str) -> Seen<'a>
        ensures text { result.text.now ≡ text.now }
        ensures form { result.form ≡ SeenForm.Line }
    {
        Seen {
            text,
            form: SeenForm::Line,
        }
    }

    /// Lines for people, each with its end.
    pub fn lines(text: &'a str) -> Seen<'a>
        ensures text { result.text.now ≡ text.now }
        ensures form { result.form ≡ SeenForm.Lines }
    {
        Seen {
            text,
            form: SeenForm::Lines,
        }
    }

    /// JSON that holds no line feed, whole or in part, in which hidden characters stand between quotes alone.
    pub fn json(text: &'a str) -> Seen<'a>
        ensures text { result.text.now ≡ text.now }
        ensures form { result.form ≡ SeenForm.Json }
    {
        Seen {
            text,
            form: SeenForm::Json,
        }
    }
}

/// A writer of lines that come from outside, in whole or in part: it writes to another one what is seen of them. What is no text is
/// passed over.
#[derive(Drop)]
pub struct SeenWriter<W> {
    writer: W,
}

impl<W: Write> SeenWriter<W> {
    /// Lines to this writer.
    pub fn new(writer: W) -> SeenWriter<W> {
        SeenWriter { writer }
    }
}

impl<W: Write> Write for SeenWriter<W> {
    fn write(&mut self, buf: &[u8]) -> io::Result<usize> {
        if let Ok(text) = std::str::from_utf8(buf) {
            let seen = Seen::lines(text);
            write!(self.writer, "{seen}")?;
        }
        Ok(buf.len())
    }

    fn flush(&mut self) -> io::Result<()> {
        self.writer.flush()
    }
}

/// Whether all that is shown are plain characters. (Of most texts they are, and such a text is written at once.)
fn are_plain(form: SeenForm, bytes: &[u8]) -> bool
    ensures { result ≡ list_all (λ b. is_plain form b) bytes.now }
{
    bytes.iter().all(|byte| is_plain(form, *byte))
}

/// Whether a byte is a character of ASCII that is not hidden.
fn is_plain(form: SeenForm, byte: u8) -> bool
    ensures { result ≡ is_plain form byte }
{
    byte < 128 && !is_hidden_in(form, char::from(byte))
}

impl fmt::Display for Seen<'_> {
    ghost use Rattle.std.specs.Prelude.{Some};
    ghost use Rattle.safe_text.specs.Seen.{seen};

    ghost output = { λ s. Some (seen s.form s.text.now) };

    fn fmt<W: fmt::Write>(&self, f: &mut fmt::Formatter<W>) -> fmt::Result {
        let form = self.form;
        let text = self.text;
        if are_plain(form, text.as_bytes()) {
            return write!(f, "{text}");
        }
        for character in text.chars() {
            let one = SeenCharacter { character, form };
            write!(f, "{one}")?;
        }
        Ok(())
    }
}

/// A character from outside, as it is shown.
#[derive(Clone, Copy)]
pub struct SeenCharacter {
    character: char,
    form: SeenForm,
}

impl SeenCharacter {
    /// A character in a line for people.
    pub fn line(character: char) -> SeenCharacter
        ensures { result ≡ record { character = character; form = SeenForm.Line } }
    {
        SeenCharacter {
            character,
            form: SeenForm::Line,
        }
    }
}

impl fmt::Display for SeenCharacter {
    ghost use Rattle.std.specs.Prelude.{Some};
    ghost use Rattle.safe_text.specs.Seen.{seen_as};

    ghost output = { λ s. Some (seen_as s.form s.character) };

    #[tactic(auto, using(crate::proofs::NothingHidden::two_digits, crate::proofs::NothingHidden::four_digits))]
    fn fmt<W: fmt::Write>(&self, f: &mut fmt::Formatter<W>) -> fmt::Result {
        let character = self.character;
        if !is_hidden_in(self.form, character) {
            return write!(f, "{character}");
        }
        let number = character as u32;
        if is_short(self.form, number) {
            write!(f, "\\x{number:02X}")
        } else {
            write!(f, "\\u{number:04X}")
        }
    }
}

/// Whether the number of a character stands in two digits.
fn is_short(form: SeenForm, number: u32) -> bool
    ensures short { result ≡ is_short form number }
    ensures bound { result ≡ true → number < 256 }
{
    match form {
        SeenForm::Json => false,
        SeenForm::Line | SeenForm::Lines => number < 256,
    }
}

/// Whether a character is hidden: a control character, or a mark that turns the direction of text.
pub fn is_hidden(character: char) -> bool
    ensures hidden { result ≡ is_hidden character }
    ensures bound { result ≡ true → character < 65536 }
{
    let number = character as u32;
    number < 0x20
        || (0x7F <= number && number < 0xA0)
        || number == 0x61C
        || (0x200E <= number && number < 0x2010)
        || (0x202A <= number && number < 0x202F)
        || (0x2066 <= number && number < 0x206A)
}

/// Whether a character is hidden where a text is shown so.
fn is_hidden_in(form: SeenForm, character: char) -> bool
    ensures hidden { result ≡ is_hidden_in form character }
    ensures bound { result ≡ true → character < 65536 }
{
    match form {
        SeenForm::Lines => character != '\n' && is_hidden(character),
        SeenForm::Line | SeenForm::Json => is_hidden(character),
    }
}

/// What is shown of a text holds no hidden character, but line feeds where its lines are kept.
#[tactic(auto, using(crate::proofs::NothingHidden::nothing_is_hidden))]
pub fn nothing_hidden_is_shown()
    ensures { (form : AnyForm) (text : List ℕ) → NoCharPasses (is_hidden_in form) (seen form text) }
{}
