ghost use Rattle.std.specs.Prelude.{◌≡◌, IfErr, IfOk};
ghost use Rattle.std.specs.Process.{exit_status};
ghost use Rattle.program_io.specs.Fault.{status_of};

use program_io::{Failure, Fault};
use safe_text::Seen;
use std::alloc::Global;
use std::process::ExitCode;

/// The status of a run. One that ended early is told on standard error: the line of its fault, and what is told behind it. (Of bad
/// lines, and of orders, each was told before.)
pub fn ended<R: Eprint>(rt: &R, ran: Result<(), Failure>) -> ExitCode
    ensures done { IfOk ran (λ _. exit_status result ≡ 0) }
    ensures status { IfErr ran (λ failure. exit_status result ≡ status_of failure.fault) }
{
    match ran {
        Ok(()) => ExitCode::SUCCESS,
        Err(failure) => {
            tell(rt, &failure);
            ExitCode::from(failure.fault.status())
        }
    }
}

fn tell<R: Eprint>(rt: &R, failure: &Failure) {
    let fault = failure.fault;
    if fault != Fault::BadLines && fault != Fault::Orders {
        let _ = eprintln!(rt; "{fault}");
    }
    if let Some(words) = &failure.words {
        let words = Seen::lines(words.as_str());
        let _ = eprint!(rt; "{words}");
    }
}

/// Why a program does not do a job: another program of `j1939bench` does it.
#[inline(never)]
pub fn done_elsewhere(alloc: Global) -> Failure
    ensures fault { result.fault ≡ Fault.CommandLine }
{
    Failure::told(Fault::CommandLine, format!(in alloc; "{}", ELSEWHERE))
}

/// What is told of a job that another program does.
const ELSEWHERE: &str = "another program of j1939bench does that: call j1939bench itself\n";
