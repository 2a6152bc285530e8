ghost use Rattle.std.specs.Prelude.{◌≡◌, ◌⊎◌, ◌↔◌, [], IfErr, IfOk, IsTrue, OnOk, codes, false, map, string_bytes};
ghost use Rattle.clap.specs.Words.{app_of, subcommand_name_of};
ghost use Rattle.clap.specs.Simple.{App, Shape, shape_of, with_subcommand};
ghost use Rattle.clap.specs.declared.builder.command.Command.TheViews.{out-Command as fields_of};
ghost use Rattle.command_line.specs.CommandLine.{AsksForHelp, AsksForScript, HasCounts, HasWords, IsHelp, TellsWhy, bench_app, faults_in, garage_app, lines_app, named_app, wire_app};

use crate::fault::{LineFault, fault_of};
use crate::{decode, live, script, tester, threads, watch};
use clap::{ArgMatches, Command};
use program_io::Job;
use std::alloc::{AllocError, Global};

/// The program's name.
const PROGRAM: &str = "j1939bench";

/// Reads the words of a command line, the program's name first. On a page of help that name is `j1939bench`, whatever the first
/// word is.
///
/// # Errors
/// - `Help`: the words ask for help or for the version.
/// - `Refused`: the words are none of the program's, or a number of turns or readings is not 1 to 100,000. It has what is wrong, with
///   the words that may have been meant and the usage, but behind `script` and `threads`.
/// - `Memory`: memory ran out.
pub fn parse<'a>(alloc: Global, words: &'a [String]) -> Result<Job<'a>, LineFault>
    ensures range { IfOk result HasCounts }
    ensures taken { OnOk result (faults_in (map string_bytes words.now) ≡ []) }
    ensures help { IfErr result (λ fault. IsHelp fault → AsksForHelp (map string_bytes words.now)) }
    ensures script { AsksForScript (map string_bytes words.now) → (result ≡ Ok Job.Script) ⊎ (result ≡ Err LineFault.Memory) }
    ensures told { IfErr result (λ fault. HasWords fault → TellsWhy (map string_bytes words.now)) }
{
    let command = bench_command(alloc)?;
    match command.try_get_matches_from(words) {
        Ok(matches) => job_of(alloc, &matches),
        Err(error) => Err(fault_of(alloc, &error, is_told(words))),
    }
}

/// Whether it is told what is wrong with words: where programs drive the subcommand, as `script` and `threads`, it is not.
fn is_told(words: &[String]) -> bool
    ensures { IsTrue result ↔ TellsWhy (map string_bytes words.now) }
{
    let Some(word) = words.get(1) else {
        return true;
    };
    match word.as_str() {
        "script" | "threads" => false,
        _ => true,
    }
}

/// The job of the subcommand that was met.
fn job_of<'a>(alloc: Global, matches: &ArgMatches<'a>) -> Result<Job<'a>, LineFault>
    ensures range { IfOk result HasCounts }
    ensures script { (result ≡ Ok Job.Script) ↔ (subcommand_name_of matches.now ≡ Some (codes "script")) }
    ensures no_help { IfErr result (λ fault. IsHelp fault → ⊥) }
    ensures untold { IfErr result (λ fault. HasWords fault → ⊥) }
{
    match matches.subcommand() {
        Some((name, found)) => job_named(alloc, name, found),
        None => Err(LineFault::Refused(None)),
    }
}

/// The job of the subcommand of this name, with the words that are found behind it.
fn job_named<'a>(alloc: Global, name: &str, found: &ArgMatches<'a>) -> Result<Job<'a>, LineFault>
    ensures range { IfOk result HasCounts }
    ensures script { (result ≡ Ok Job.Script) ↔ (name.now ≡ codes "script") }
    ensures no_help { IfErr result (λ fault. IsHelp fault → ⊥) }
    ensures untold { IfErr result (λ fault. HasWords fault → ⊥) }
{
    match name {
        "script" => Ok(Job::Script),
        "threads" => threads::job(found),
        "watch" => watch::job(alloc, found),
        "log" => Ok(Job::Log(script::log_words(found))),
        "decode" => Ok(Job::Decode(decode::words(found))),
        "check" => Ok(Job::Check),
        "live" => Ok(Job::Live(live::words(found))),
        "tester" => tester::job(alloc, found),
        _ => Err(LineFault::Refused(None)),
    }
}

/// The program's command with its subcommands.
fn bench_command<'a>(alloc: Global) -> Result<Command<'a>, AllocError>
    ensures { IfOk result (λ c. app_of c ≡ bench_app) }
{
    let lively = with_one_more(with_lines(alloc), live::command(alloc));
    with_one_more(lively, tester::command(alloc))
}

/// The command with the subcommands that read the lines of a log besides.
fn with_lines<'a>(alloc: Global) -> Result<Command<'a>, AllocError>
    ensures { IfOk result (λ c. app_of c ≡ lines_app) }
{
    let watching = with_one_more(with_wire(alloc), watch::command(alloc));
    with_one_more(watching, decode::command(alloc))
}

/// The command with those that tell of a script's wire and of its lines besides.
fn with_wire<'a>(alloc: Global) -> Result<Command<'a>, AllocError>
    ensures { IfOk result (λ c. app_of c ≡ wire_app) }
{
    let logging = with_one_more(with_garage(alloc), script::log_command(alloc));
    with_one_more(logging, script::check_command(alloc))
}

/// The command with the subcommands that run a garage.
fn with_garage<'a>(alloc: Global) -> Result<Command<'a>, AllocError>
    ensures { IfOk result (λ c. app_of c ≡ garage_app) }
{
    let scripted = with_one_more(named(alloc), script::script_command(alloc));
    with_one_more(scripted, threads::command(alloc))
}

/// The command with no subcommand yet, under its own name whatever the first word is.
fn named<'a>(alloc: Global) -> Result<Command<'a>, AllocError>
    ensures { IfOk result (λ c. app_of c ≡ named_app) }
{
    Command::new(alloc, PROGRAM)
        .version("3.0.0")
        .about("A diagnostic station for SAE J1939 with simulated control units")
        .after_help(threads::vehicle())
        .subcommand_required(true)
        .bin_name(PROGRAM)
}

/// The command with this subcommand besides, where both could be made.
fn with_one_more<'a>(
    command: Result<Command<'a>, AllocError>,
    subcommand: Result<Command<'a>, AllocError>,
) -> Result<Command<'a>, AllocError>
    ensures { (app : App) → (shape : Shape)
        → IfOk command.entry (λ c. app_of c ≡ app)
        → IfOk subcommand.entry (λ c. shape_of c ≡ shape)
        → IfOk subcommand.entry (λ c. (fields_of c).has_globals ≡ false)
        → IfOk result (λ c. app_of c ≡ with_subcommand app shape) }
{
    command?.subcommand(subcommand?)
}
