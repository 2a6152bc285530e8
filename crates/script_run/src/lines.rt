ghost use Rattle.std.specs.Prelude.{◌≡◌, None, IfErr, IsErr, IsOk, OnOk};
ghost use Rattle.std.specs.Option.{option_map};
ghost use Rattle.std.specs.Str.Lines.{lines};
ghost use Rattle.script_run.specs.Lines.{FirstDoes, Makes, unit_joined_by, setting_meant};
ghost use Rattle.script_run.specs.Sinks.{Closes, IsToldSo, TakesScript};

use crate::answer_sink::AnswerSink;
use crate::bench::Bench;
use garage::{Garage, GarageError, Setting};
use name_field::{Name, NameError};
use program_io::Fault;
use script_answer::{LineAnswer, Refusal, Unwritten};
use script_line::{Command, ScriptLine, StationWords, read_line};
use std::alloc::Global;
use unit_trait::{Simulated, UnitKind};

/// Answers the lines of a script, one after another. At the end each unit that is left on the bus is taken off.
pub(crate) fn answer_lines<L: AnswerSink>(
    alloc: Global,
    text: &str,
    sink: &mut L,
) -> Result<(), Fault>
    ensures ends { IfErr result L.ends_by }
    ensures answered { OnOk result (TakesScript
        (record { begins = L.AnswerSink.begins; takes = L.AnswerSink.takes; ends = L.AnswerSink.ends })
        L.AnswerSink.closes (lines text.now) sink.old sink.new) }
{
    let mut bench: Option<Bench> = None;
    let mut heard = Ok(());
    for line in text.lines() {
        if sink.begin_line(line) {
            continue;
        }
        let read = read_line(line);
        let has_garage = bench.is_some();
        let answered = match &mut bench {
            Some(at) => match joining(&read) {
                Some(newcomer) => {
                    // Only here, where the bench is owned, may a unit of a kind become one of any kind.
                    let unit = Simulated::new(alloc, newcomer.name, newcomer.kind);
                    let joined = match Box::new(alloc, unit) {
                        Ok(unit) => at.join(unit, newcomer.address),
                        Err(_) => Err(Refusal::Garage(GarageError::OutOfMemory)),
                    };
                    sink.answer(joined)
                }
                None => at.answer(&read, sink),
            },
            None => begin(alloc, &read, &mut bench, sink),
        };
        heard = sink.end_line(line, has_garage, answered);
        if heard.is_err() {
            break;
        }
    }
    close(bench, heard, sink)
}

/// Takes each unit off the bus. Where each line was answered, the sink looks at the garage before that.
fn close<L: AnswerSink>(
    bench: Option<Bench>,
    answered: Result<(), Fault>,
    sink: &mut L,
) -> Result<(), Fault>
    requires { IfErr answered L.ends_by }
    ensures ends { IfErr result L.ends_by }
    ensures unanswered { IsErr answered → IsErr result }
    ensures closed { OnOk result (Closes L.AnswerSink.closes (option_map (λ b. b.garage) bench) sink.old sink.new) }
{
    let Some(bench) = bench else {
        return answered;
    };
    let ended = match answered {
        Ok(()) => sink.finish(&bench),
        Err(fault) => Err(fault),
    };
    bench.close();
    ended
}

/// A unit that a line has join.
#[derive(Clone, Copy)]
struct Newcomer {
    name: Name,
    address: u8,
    kind: UnitKind,
}

/// The unit that a line has join, where it has one join.
fn joining(read: &Option<ScriptLine>) -> Option<Newcomer>
    ensures { option_map (λ unit. (unit.name, unit.address)) result ≡ unit_joined_by read.now }
{
    match read {
        Some(
            ScriptLine {
                command: Command::Join {
                    name: Ok(name),
                    address,
                    kind,
                },
                ..
            },
        ) => Some(Newcomer {
            name: *name,
            address: *address,
            kind: *kind,
        }),
        _ => None,
    }
}

/// Answers a line of a script that has no garage yet; it may make one.
fn begin<L: AnswerSink>(
    alloc: Global,
    read: &Option<ScriptLine>,
    bench: &mut Option<Bench>,
    sink: &mut L,
) -> Result<(), Unwritten>
    ensures does { bench.old ≡ None → OnOk result (IsToldSo L.AnswerSink.takes
        (λ told. FirstDoes read.now told (option_map (λ b. b.garage) bench.new))
        sink.old sink.new) }
{
    let Some(line) = read else {
        return sink.answer(Err(Refusal::BadLine));
    };
    match made_by(alloc, &line.command) {
        Ok(garage) => {
            if let Some(before) = bench.replace(Bench::new(alloc, garage)) {
                before.close();
            }
            sink.answer(Ok(LineAnswer::Done))
        }
        Err(refusal) => sink.answer(Err(refusal)),
    }
}

/// The garage that a command makes; any other command is refused here.
fn made_by(alloc: Global, command: &Command) -> Result<Garage, Refusal>
    ensures { Makes command.now result }
{
    match *command {
        Command::Garage {
            name,
            address,
            window,
            grant,
            limit,
        } => Ok(Garage::new(alloc, name?, address, window, grant, limit)?),
        Command::Garage2 {
            first,
            second,
            limit,
        } => Ok(Garage::with_two(alloc, setting_of(first)?, setting_of(second)?, limit)?),
        _ => Err(Refusal::BadLine),
    }
}

/// How words want a station opened.
fn setting_of(words: StationWords) -> Result<Setting, NameError>
    ensures { result ≡ setting_meant words }
{
    let StationWords {
        name,
        address,
        window,
        grant,
    } = words;
    Ok(Setting {
        name: name?,
        address,
        window,
        grant,
    })
}
