ghost use Rattle.std.specs.Prelude.{◌≡◌, ◌⊎◌, [], IfErr, IfOk, IfSome, map, string_bytes};
ghost use Rattle.command_line.specs.CommandLine.{AsksForHelp, AsksForScript, HasCounts, faults_in};
ghost use Rattle.command_line.specs.Ends.{IsOfPage, IsOfWords};

use crate::fault::LineFault;
use crate::reading::parse;
use program_io::{Failure, Fault, Job};
use std::io;
use std::rt::Runtime;

/// The words of the command line, the program's name first.
///
/// # Errors
/// - `Memory`: memory ran out.
/// - `CommandLine`: they cannot be read, as a word that is no text.
#[inline(never)]
pub fn read_words<R: Runtime + AllocGlobal>(rt: &R) -> Result<Vec<String>, Failure>
    ensures fault { IfErr result (λ failure. IsOfWords failure.fault) }
{
    match collected_words(rt) {
        Ok(words) => Ok(words),
        Err(error) if error.kind() == io::ErrorKind::OutOfMemory => {
            Err(Failure::from(Fault::Memory))
        }
        Err(_) => Err(Failure::from(Fault::CommandLine)),
    }
}

fn collected_words<R: Runtime + AllocGlobal>(rt: &R) -> io::Result<Vec<String>> {
    let words = std::env::args(rt)?.collect(rt.alloc())?;
    Ok(words)
}

/// The job that these words ask for, the program's name first. Where they ask for a page of help, that is printed, and there is no
/// job.
///
/// # Errors
/// - `CommandLine`: the words are none of `j1939bench`. Behind most subcommands it is told why.
/// - `Write`: the page could not be printed.
/// - `Memory`: memory ran out.
#[inline(never)]
pub fn asked_for<'a, R: Print + AllocGlobal>(
    rt: &R,
    words: &'a [String],
) -> Result<Option<Job<'a>>, Failure>
    ensures fault { IfErr result (λ failure. IsOfPage failure.fault) }
    ensures range { IfOk result (λ job. IfSome job HasCounts) }
    ensures taken { IfOk result
        (λ job. IfSome job (λ _. faults_in (map string_bytes words.now) ≡ [])) }
    ensures help { result ≡ Ok None → AsksForHelp (map string_bytes words.now) }
    ensures script { AsksForScript (map string_bytes words.now)
        → (result ≡ Ok (Some Job.Script)) ⊎ IfErr result (λ failure. failure.fault ≡ Fault.Memory) }
{
    match parse(rt.alloc(), words) {
        Ok(job) => Ok(Some(job)),
        Err(LineFault::Help(page)) => {
            print_page(rt, page.as_str())?;
            Ok(None)
        }
        Err(LineFault::Refused(words)) => Err(Failure {
            fault: Fault::CommandLine,
            words,
        }),
        Err(LineFault::Memory) => Err(Failure::from(Fault::Memory)),
    }
}

fn print_page<R: Print>(rt: &R, page: &str) -> Result<(), Failure>
    ensures { IfErr result (λ failure. failure.fault ≡ Fault.Write) }
{
    match print!(rt; "{page}") {
        Ok(()) => Ok(()),
        Err(_) => Err(Failure::from(Fault::Write)),
    }
}
