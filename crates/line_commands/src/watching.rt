use crate::ending::end_of_watch;
use crate::local::local_zone;
use crate::shop::{ShopFiles, ShopTexts};
use crate::watch_words::{assumed_of, options_of};
use log_lines::LocalZone;
use program_io::{Failure, Fault, Messages, WatchArguments};
use std::alloc::Global;
use std::io::{LineWriter, Read, Write};
use std::rt::{Env, Files};
use watch_lines::{Assumed, WatchOptions};

/// What `watch` is asked.
#[derive(Clone, Copy)]
pub struct WatchRequest<'a> {
    pub words: WatchArguments<'a>,
    /// Each `ADDRESS=NAME` of a unit that holds an address before the first line.
    pub assumed: &'a [&'a str],
    /// Each `NAME=METHOD` of a unit whose older codes are read by that conversion method.
    pub conversions: &'a [&'a str],
}

/// `watch`: what the lines of a log or of a live bus tell.
///
/// # Errors
/// - `CommandLine`: the words are none of it, or this machine has no zone where its clock is asked for; nothing is read.
/// - `Texts`: a file of the shop holds no texts, and it is told at which line; nothing is read.
/// - `Read`, `Write`, `Memory`: what happened; what was found until then is reported.
/// - `BadLines`: all is reported, but some lines were bad, each of which is told on `errors`, where that takes it; or more was
///   heard than is kept at once, and it was begun anew.
pub fn watch<H: Env + Files + AllocGlobal, R: Read + Drop, W: Write + Drop, E: Write + Drop>(
    rt: &H,
    request: WatchRequest<'_>,
    files: ShopFiles<'_>,
    mut reader: R,
    mut writer: W,
    mut errors: E,
) -> Result<(), Failure> {
    let known = Known::read(rt, &request, files);
    watch_known(
        rt.alloc(),
        &request,
        known,
        &mut reader,
        &mut writer,
        &mut errors,
    )
}

/// What is known before the first line.
#[derive(Drop)]
struct Known {
    /// The zone of this machine; UTC where its clock is not asked for.
    local: LocalZone,
    assumed: Vec<Assumed>,
    shop: ShopTexts,
}

impl Known {
    /// The zone, the units that these words assume, and the texts of these files.
    fn read<H: Env + Files + AllocGlobal>(
        rt: &H,
        request: &WatchRequest<'_>,
        files: ShopFiles<'_>,
    ) -> Result<Known, Failure> {
        let local = local_zone(rt, request.words.clock)?;
        let assumed = assumed_of(rt.alloc(), request.assumed)?;
        let shop = ShopTexts::read(rt.alloc(), files)?;
        Ok(Known {
            local,
            assumed,
            shop,
        })
    }
}

/// Watches with what is known, where that could be read.
fn watch_known<R: Read, W: Write, E: Write>(
    alloc: Global,
    request: &WatchRequest<'_>,
    known: Result<Known, Failure>,
    reader: &mut R,
    writer: &mut W,
    errors: &mut E,
) -> Result<(), Failure> {
    match known {
        Ok(known) => watch_with(alloc, request, &known, reader, writer, errors),
        Err(failure) => Err(failure),
    }
}

/// Watches as the words ask for it.
fn watch_with<'a, R: Read, W: Write, E: Write>(
    alloc: Global,
    request: &'a WatchRequest<'_>,
    known: &'a Known,
    reader: &mut R,
    writer: &mut W,
    errors: &mut E,
) -> Result<(), Failure> {
    let assumed = known.assumed.as_slice();
    match options_of(
        &request.words,
        request.conversions,
        &known.local,
        assumed,
        &known.shop,
    ) {
        Ok(options) => watch_lines_of(alloc, reader, writer, errors, &options),
        Err(fault) => Err(Failure::from(fault)),
    }
}

/// Reads the lines, with room for what is told of them.
fn watch_lines_of<R: Read, W: Write, E: Write>(
    alloc: Global,
    reader: &mut R,
    writer: &mut W,
    errors: &mut E,
    options: &WatchOptions<'_>,
) -> Result<(), Failure> {
    match LineWriter::new(alloc, Messages::new(errors)) {
        Ok(mut errors) => end_of_watch(watch_lines::watch(
            alloc,
            reader,
            writer,
            &mut errors,
            options,
        )),
        Err(_) => Err(Failure::from(Fault::Memory)),
    }
}
