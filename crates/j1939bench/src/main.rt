//! `j1939bench`: a garage of simulated control units and their diagnostic station, driven by a script or by threads.
//!
//! It does `script`, `log`, `check` and `threads`. `j1939bench_lines` and `j1939bench_live` do the other subcommands.
#![tactic(auto)]

use command_line::{Errors, asked_for, done_elsewhere, ended, read_words};
use program_io::{Failure, Fault, Job, LogArguments, Messages};
use std::io;
use std::io::{BufWriter, LineWriter};
use std::process::ExitCode;
use std::rt::Runtime;
use std::sync::Wait;
use std::thread::Threads;

fn main(rt: HostRuntime) -> ExitCode {
    let ran = run(&rt);
    ended(&rt, ran)
}

/// Does what the words of the command line ask for.
fn run<R: Runtime + AllocGlobal + Threads + Wait + Sync>(rt: &R) -> Result<(), Failure> {
    let words = read_words(rt)?;
    match asked_for(rt, words.as_slice())? {
        Some(job) => do_job(rt, job),
        None => Ok(()),
    }
}

/// Hands a job to its subcommand. Each of them is a call of its own, so that none takes the stack of all. (A reader of standard
/// input has some kilobytes of room in itself, and is lent.)
#[inline(never)]
fn do_job<R: Runtime + AllocGlobal + Threads + Wait + Sync>(
    rt: &R,
    job: Job<'_>,
) -> Result<(), Failure> {
    match job {
        Job::Script => script(rt),
        Job::Threads {
            turns,
            reads,
            report,
        } => threads(rt, turns, reads, report),
        Job::Log(words) => log(rt, words),
        Job::Check => check(rt),
        Job::Watch { .. } | Job::Decode(_) | Job::Live(_) | Job::Tester { .. } => {
            Err(done_elsewhere(rt.alloc()))
        }
    }
}

#[inline(never)]
fn script<R: Runtime + AllocGlobal>(rt: &R) -> Result<(), Failure> {
    let mut writer = BufWriter::new(rt.alloc(), io::writer(rt)).map_err(|_| Fault::Memory)?;
    script_run::script(rt.alloc(), &mut rt.reader(), &mut writer)?;
    Ok(())
}

#[inline(never)]
fn threads<R: Runtime + AllocGlobal + Threads + Wait + Sync>(
    rt: &R,
    turns: u32,
    reads: u32,
    report: bool,
) -> Result<(), Failure> {
    let mut writer = BufWriter::new(rt.alloc(), io::writer(rt)).map_err(|_| Fault::Memory)?;
    unit_threads::threads(
        rt,
        rt.alloc(),
        turns,
        reads,
        report,
        &mut rt.reader(),
        &mut writer,
    )
}

#[inline(never)]
fn log<R: Runtime + AllocGlobal>(rt: &R, words: LogArguments<'_>) -> Result<(), Failure> {
    let mut writer = BufWriter::new(rt.alloc(), io::writer(rt)).map_err(|_| Fault::Memory)?;
    let mut errors = LineWriter::new(rt.alloc(), Messages::new(Errors::new(rt))).map_err(
        |_| Fault::Memory,
    )?;
    script_run::log(
        rt.alloc(),
        words,
        &mut rt.reader(),
        &mut writer,
        &mut errors,
    )
}

#[inline(never)]
fn check<R: Runtime + AllocGlobal>(rt: &R) -> Result<(), Failure> {
    let mut writer = BufWriter::new(rt.alloc(), io::writer(rt)).map_err(|_| Fault::Memory)?;
    script_run::check(rt.alloc(), &mut rt.reader(), &mut writer)?;
    Ok(())
}
