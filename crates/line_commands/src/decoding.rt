use crate::ending::end_of;
use crate::shop::{ShopFiles, ShopTexts};
use decode_lines::{DecodeForm, DecodeOptions};
use program_io::{DecodeArguments, Failure, Fault, Messages};
use std::alloc::Global;
use std::io::{LineWriter, Read, Write};

/// How the words behind `decode` want each line answered: in words where that is not said.
pub(crate) fn form_of(words: DecodeArguments<'_>) -> Result<DecodeForm, Fault> {
    match words.format {
        None | Some("text") => Ok(DecodeForm::Text),
        Some("json") => Ok(DecodeForm::Json),
        Some(_) => Err(Fault::CommandLine),
    }
}

/// `decode`: each line in words, or as a JSON object, with the texts and the signals of a shop's files, where there are such.
///
/// # Errors
/// - `CommandLine`: the words are none of it; nothing is read.
/// - `Texts`: a file of the shop holds no texts or signals, and it is told at which line; nothing is read.
/// - `Read`, `Write`, `Memory`: what happened.
/// - `BadLines`: all lines are answered, but some were bad; each is told on `errors`, where that takes it.
pub fn decode<R: Read + Drop, W: Write + Drop, E: Write + Drop>(
    alloc: Global,
    words: DecodeArguments<'_>,
    files: ShopFiles<'_>,
    mut reader: R,
    mut writer: W,
    mut errors: E,
) -> Result<(), Failure> {
    let asked = Asked::read(alloc, words, files);
    decode_asked(alloc, asked, &mut reader, &mut writer, &mut errors)
}

/// How each line is to be answered.
#[derive(Drop)]
struct Asked {
    form: DecodeForm,
    join: bool,
    shop: ShopTexts,
}

impl Asked {
    /// What the words ask for, with the texts of these files.
    fn read(
        alloc: Global,
        words: DecodeArguments<'_>,
        files: ShopFiles<'_>,
    ) -> Result<Asked, Failure> {
        let form = form_of(words)?;
        let shop = ShopTexts::read(alloc, files)?;
        Ok(Asked {
            form,
            join: words.join,
            shop,
        })
    }

    /// The same, lent.
    fn options(&self) -> DecodeOptions<'_> {
        DecodeOptions {
            form: self.form,
            units: &self.shop.units,
            texts: &self.shop.texts,
            signals: &self.shop.signals,
            join: self.join,
        }
    }
}

/// Answers lines as it is asked for, where anything is.
fn decode_asked<R: Read, W: Write, E: Write>(
    alloc: Global,
    asked: Result<Asked, Failure>,
    reader: &mut R,
    writer: &mut W,
    errors: &mut E,
) -> Result<(), Failure> {
    match asked {
        Ok(asked) => decode_lines_of(alloc, reader, writer, errors, &asked),
        Err(failure) => Err(failure),
    }
}

/// Reads the lines, with room for what is told of them.
fn decode_lines_of<R: Read, W: Write, E: Write>(
    alloc: Global,
    reader: &mut R,
    writer: &mut W,
    errors: &mut E,
    asked: &Asked,
) -> Result<(), Failure> {
    let options = asked.options();
    match LineWriter::new(alloc, Messages::new(errors)) {
        Ok(mut errors) => end_of(decode_lines::decode(
            alloc,
            reader,
            writer,
            &mut errors,
            &options,
        )),
        Err(_) => Err(Failure::from(Fault::Memory)),
    }
}
