//! `j1939bench_tester`: the subcommand `tester` of `j1939bench`, a station on a real bus that asks, reads and clears.
#![tactic(auto)]

mod report_file;
mod terminal;
mod tester;

use command_line::{asked_for, done_elsewhere, ended, read_words};
use program_io::{Failure, Job};
use std::fs::File;
use std::io::{IsTerminal, StdinLock};
use std::process::ExitCode;
use std::rt::{Files, Runtime};
use std::sync::Wait;
use std::thread::Threads;

fn main(rt: HostRuntime) -> ExitCode {
    let is_terminal = rt.stderr().is_terminal();
    let ran = run(&rt, &rt, is_terminal);
    ended(&rt, ran)
}

/// Does what the words of the command line ask for. (The host writes the report: that one is known to go to any thread.)
fn run<
    R: Runtime
        + AllocGlobal
        + Threads
        + Wait
        + Sync
        + Send
        + Input<Reader = StdinLock<'static>>
        + Files<File = File>
        + 'static,
>(rt: &R, host: &HostRuntime, is_terminal: bool) -> Result<(), Failure> {
    let words = read_words(rt)?;
    match asked_for(rt, words.as_slice())? {
        Some(Job::Tester { words, orders }) => tester::tester(
            rt,
            host,
            words,
            orders.as_slice(),
            is_terminal,
        ),
        Some(_) => Err(done_elsewhere(rt.alloc())),
        None => Ok(()),
    }
}
