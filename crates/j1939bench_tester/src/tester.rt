//! `tester`: its files are opened here.

use crate::report_file::PutFile;
use crate::terminal::Terminal;
use command_line::{Errors, open};
use program_io::{Failure, TesterArguments};
use std::fs::{File, OpenOptions};
use std::io;
use std::io::StdinLock;
use std::rt::{Files, Runtime};
use std::sync::Wait;
use std::thread::Threads;
use tester_command::{TesterFiles, TesterWords, look_at_tester_words};

/// Puts a station on the bus that standard input tells of; with a table of the units, where standard error is a terminal.
#[inline(never)]
pub(crate) fn tester<
    R: Runtime
        + AllocGlobal
        + Threads
        + Wait
        + Sync
        + Send
        + Input<Reader = StdinLock<'static>>
        + Files<File = File>
        + 'static,
>(
    rt: &R,
    host: &HostRuntime,
    words: TesterArguments<'_>,
    orders: &[&str],
    is_terminal: bool,
) -> Result<(), Failure> {
    look_at_tester_words(rt.alloc(), &words, orders)?;
    let report = match words.report {
        Some(path) => Some(PutFile::new(host, path)?),
        None => None,
    };
    let control = match words.control {
        Some(path) => Some(open_orders(rt, path)?),
        None => None,
    };
    let files = TesterFiles {
        bus: boxed_reader(rt)?,
        control,
        report,
        terminal: if is_terminal {
            Some(Terminal::new(rt))
        } else {
            None
        },
    };
    let words = TesterWords {
        options: &words,
        orders,
    };
    tester_command::tester(
        rt,
        rt.alloc(),
        words,
        files,
        &mut io::writer(rt),
        &mut Errors::new(rt),
    )
}

/// Standard input, on the heap: its reader has 8 KB in itself, which each call that it is handed through would have on its stack.
#[inline(never)]
fn boxed_reader<R: Runtime + AllocGlobal + Input<Reader = StdinLock<'static>>>(
    rt: &R,
) -> Result<Box<StdinLock<'static>>, Failure> {
    let reader = Box::new(rt.alloc(), rt.reader())?;
    Ok(reader)
}

/// The file of the orders. A named pipe is opened in both directions, where that may be: then this does not wait for someone who
/// writes, and the pipe does not end when that one does.
fn open_orders<R: Runtime + AllocGlobal + Files<File = File>>(
    rt: &R,
    path: &str,
) -> Result<File, Failure> {
    match OpenOptions::new().read(true).write(true).open(rt, path) {
        Ok(file) => Ok(file),
        Err(_) => open(rt, path),
    }
}
