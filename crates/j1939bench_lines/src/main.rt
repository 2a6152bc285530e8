//! `j1939bench_lines`: the subcommands of `j1939bench` that read the lines of a log or of a live bus, `watch` and `decode`.
#![tactic(auto)]

use command_line::{Errors, asked_for, done_elsewhere, ended, open, read_file, read_words};
use either::Either;
use line_commands::{ShopFiles, WatchRequest};
use log_lines::ProgressReader;
use program_io::{DecodeArguments, Failure, Job, path_of};
use std::io::IsTerminal;
use std::process::ExitCode;
use std::rt::{Files, Runtime};
use std::{fs, io};

fn main(rt: HostRuntime) -> ExitCode {
    let is_terminal = rt.stderr().is_terminal();
    let ran = run(&rt, is_terminal);
    ended(&rt, ran)
}

/// Does what the words of the command line ask for. Where standard error is a terminal, it is told there how far a long log is
/// read.
fn run<R: Runtime + AllocGlobal>(rt: &R, is_terminal: bool) -> Result<(), Failure> {
    let words = read_words(rt)?;
    match asked_for(rt, words.as_slice())? {
        Some(job) => do_job(rt, job, is_terminal),
        None => Ok(()),
    }
}

/// Hands a job to its subcommand. Each of them is a call of its own, so that none takes the stack of all. (A reader of standard
/// input has some kilobytes of room in itself, and is lent.)
#[inline(never)]
fn do_job<R: Runtime + AllocGlobal>(
    rt: &R,
    job: Job<'_>,
    is_terminal: bool,
) -> Result<(), Failure> {
    match job {
        Job::Watch {
            words,
            assumed,
            conversions,
        } => {
            let request = WatchRequest {
                words,
                assumed: assumed.as_slice(),
                conversions: conversions.as_slice(),
            };
            watch(rt, request, is_terminal)
        }
        Job::Decode(words) => decode(rt, words, is_terminal),
        Job::Script
        | Job::Threads { .. }
        | Job::Log(_)
        | Job::Check
        | Job::Live(_)
        | Job::Tester { .. } => Err(done_elsewhere(rt.alloc())),
    }
}

/// Watches a file, where one is named, or standard input.
#[inline(never)]
fn watch<R: Runtime + AllocGlobal>(
    rt: &R,
    request: WatchRequest<'_>,
    is_terminal: bool,
) -> Result<(), Failure> {
    let words = request.words;
    line_commands::look_at_watch_words(rt, &request)?;
    let units = read_texts(rt, words.units)?;
    let texts = read_texts(rt, words.texts)?;
    let signals = read_texts(rt, words.signals)?;
    let since = read_texts(rt, words.since)?;
    let files = ShopFiles {
        units: named(words.units, &units),
        texts: named(words.texts, &texts),
        signals: named(words.signals, &signals),
        since: named(words.since, &since),
    };
    watch_with(rt, request, files, is_terminal)
}

/// Watches with the shop's files.
#[inline(never)]
fn watch_with<R: Runtime + AllocGlobal>(
    rt: &R,
    request: WatchRequest<'_>,
    files: ShopFiles<'_>,
    is_terminal: bool,
) -> Result<(), Failure> {
    let mut input = rt.reader();
    match reader_of(rt, request.words.file, &mut input, is_terminal) {
        Ok(reader) => line_commands::watch(
            rt,
            request,
            files,
            reader,
            io::writer(rt),
            Errors::new(rt),
        ),
        Err(failure) => Err(failure),
    }
}

/// What lines are read of: a file, or standard input, which is lent.
type Lines<'a, R> = Either<<R as Files>::File, &'a mut <R as Input>::Reader>;

/// A reader of a file, where one is named, or of standard input. Where standard error is a terminal, it tells there how far it is.
#[inline(never)]
fn reader_of<'a, R: Runtime + AllocGlobal>(
    rt: &'a R,
    file: Option<&str>,
    input: &'a mut R::Reader,
    is_terminal: bool,
) -> Result<ProgressReader<'a, Lines<'a, R>, R, Errors<'a, R>>, Failure> {
    match path_of(file) {
        Some(path) => {
            let lines = Either::Left(open(rt, path)?);
            Ok(told(rt, lines, size_of(rt, path), is_terminal))
        }
        None => Ok(told(rt, Either::Right(input), None, is_terminal)),
    }
}

/// A reader over this one, which tells on standard error how far it is, where that is a terminal.
#[inline(never)]
fn told<'a, R: Runtime, I>(
    rt: &'a R,
    reader: I,
    size: Option<u64>,
    is_terminal: bool,
) -> ProgressReader<'a, I, R, Errors<'a, R>> {
    ProgressReader::new(reader, rt, Errors::new(rt), size, is_terminal)
}

/// How large a file is; none where it is no regular file, or that cannot be told.
#[inline(never)]
fn size_of<R: Runtime>(rt: &R, path: &str) -> Option<u64> {
    match fs::metadata(rt, path) {
        Ok(metadata) if metadata.is_file() => Some(metadata.len()),
        _ => None,
    }
}

/// What a file of texts or of signals has; nothing where none is named.
#[inline(never)]
fn read_texts<R: Runtime + AllocGlobal>(rt: &R, path: Option<&str>) -> Result<Vec<u8>, Failure> {
    match path {
        Some(path) => read_file(rt, path),
        None => Ok(Vec::new(rt.alloc())),
    }
}

/// What a file has, where one is named.
fn named<'a>(path: Option<&str>, file: &'a Vec<u8>) -> Option<&'a [u8]> {
    match path {
        Some(_) => Some(file.as_slice()),
        None => None,
    }
}

/// Reads the files of texts and of signals, where there are such, and answers the lines of a file, where one is named, or of standard input.
#[inline(never)]
fn decode<R: Runtime + AllocGlobal>(
    rt: &R,
    words: DecodeArguments<'_>,
    is_terminal: bool,
) -> Result<(), Failure> {
    line_commands::look_at_decode_words(rt.alloc(), &words)?;
    let units = read_texts(rt, words.units)?;
    let texts = read_texts(rt, words.texts)?;
    let signals = read_texts(rt, words.signals)?;
    let files = ShopFiles {
        units: named(words.units, &units),
        texts: named(words.texts, &texts),
        signals: named(words.signals, &signals),
        since: None,
    };
    decode_with(rt, words, files, is_terminal)
}

/// Answers lines with the shop's files.
#[inline(never)]
fn decode_with<R: Runtime + AllocGlobal>(
    rt: &R,
    words: DecodeArguments<'_>,
    files: ShopFiles<'_>,
    is_terminal: bool,
) -> Result<(), Failure> {
    let mut input = rt.reader();
    match reader_of(rt, words.file, &mut input, is_terminal) {
        Ok(reader) => line_commands::decode(
            rt.alloc(),
            words,
            files,
            reader,
            io::writer(rt),
            Errors::new(rt),
        ),
        Err(failure) => Err(failure),
    }
}
