ghost use Rattle.std.specs.Prelude.{◌↔◌, List, ℕ, Bool, IfErr, IsErr, IsTrue, Ok, Err, OnOk};
ghost use Rattle.journal.specs.Journal.{GarageValue as AnyGarage};
ghost use Rattle.program_io.specs.declared.fault.Fault.{Fault as AnyFault};
ghost use Rattle.report.specs.Shown.{shown_text};
ghost use Rattle.report.specs.Text.{report_text};
ghost use Rattle.script_line.specs.Line.{IsSilent};
ghost use Rattle.script_run.specs.Lines.{LineTold, Answered, Showed};

use crate::bench::Bench;
use dm_messages::Shown;
use garage::Snapshot;
use program_io::Fault;
use script_answer::{LineAnswer, Refusal, Unwritten};

/// Whom the lines of a script are answered to.
pub(crate) trait AnswerSink {
    /// What it comes to as a line begins.
    ghost begins: { Self → Self → Type 0 };

    /// What it comes to as it is told of the line.
    ghost takes: { Self → LineTold → Self → Type 0 };

    /// What it comes to as the line ends, before which there was a garage or none.
    ghost ends: { List ℕ → Bool → Self → Self → Type 0 };

    /// What it comes to as it looks at the garage.
    ghost closes: { AnyGarage → Self → Self → Type 0 };

    /// The faults by which it ends a script.
    ghost ends_by: { AnyFault → Type 0 };

    /// Takes note of a line before it is answered. Tells whether it has no answer.
    fn begin_line(&mut self, line: &str) -> bool
        ensures silent { IsTrue result ↔ IsSilent line.now }
        ensures begins { begins self.old self.new };

    /// Takes the answer of a line.
    fn answer(&mut self, answer: Result<LineAnswer, Refusal>) -> Result<(), Unwritten>
        ensures takes { OnOk result (takes self.old (Answered answer) self.new) };

    /// Takes what a station shows.
    fn shown(&mut self, entries: &[Shown]) -> Result<(), Unwritten>
        ensures takes { OnOk result (takes self.old (Showed (shown_text entries.now)) self.new) };

    /// Takes the report of a station.
    fn report(&mut self, snapshot: &Snapshot) -> Result<(), Unwritten>
        ensures takes { OnOk result (takes self.old (Showed (report_text snapshot.now)) self.new) };

    /// Takes note that a line was answered: whether there was a garage before, and whether its answer could be written.
    fn end_line(
        &mut self,
        line: &str,
        has_garage: bool,
        answered: Result<(), Unwritten>,
    ) -> Result<(), Fault>
        ensures ends { IfErr result ends_by }
        ensures unanswered { IsErr answered → IsErr result }
        ensures ended { OnOk result (ends line.now has_garage self.old self.new) };

    /// Looks at the garage, where there is one, after the last line and before its units leave.
    fn finish(&mut self, bench: &Bench) -> Result<(), Fault>
        ensures ends { IfErr result ends_by }
        ensures closed { OnOk result (closes bench.now.garage self.old self.new) };
}
