ghost use Rattle.std.specs.Prelude.{◌≡◌, ◌≤◌, length, IfOk, IfErr};
ghost use Rattle.station_c.specs.Records.{TellsChange, TellsReaction};
ghost use Rattle.station_c.specs.Statuses.{status_of_station};

use crate::changes::ChangeRecord;
use crate::records::ReplyRecord;
use crate::status::Status;
use station_table::{Outcome, Reaction, StationError};

/// Writes what the station answered, and says how the call went. The reply stays as it was where the station refused.
pub fn reply_with(answer: Result<Reaction, StationError>, reply: &mut ReplyRecord) -> Status
    requires { IfOk answer (λ x. length x.put ≤ 3) }
    ensures done { IfOk answer (λ x. (result ≡ Status.Done) × TellsReaction reply.new x) }
    ensures refused { IfErr answer (λ e. (result ≡ status_of_station e) × (reply.new ≡ reply.old)) }
{
    match answer {
        Ok(reaction) => {
            reply.write(&reaction);
            Status::Done
        }
        Err(refusal) => Status::of_station(refusal),
    }
}

/// Writes what the station answered and what changed, and says how the call went. Both stay as they were where the station refused.
pub fn tell(
    outcome: Result<Outcome, StationError>,
    reply: &mut ReplyRecord,
    change: &mut ChangeRecord,
) -> Status
    requires { IfOk outcome (λ x. length x.reaction.put ≤ 3) }
    ensures done { IfOk outcome (λ x. (result ≡ Status.Done) × TellsReaction reply.new x.reaction × TellsChange change.new x.change) }
    ensures refused { IfErr outcome (λ e. (result ≡ status_of_station e) × (reply.new ≡ reply.old) × (change.new ≡ change.old)) }
{
    match outcome {
        Ok(it) => {
            reply.write(&it.reaction);
            *change = ChangeRecord::of(&it.change);
            Status::Done
        }
        Err(refusal) => Status::of_station(refusal),
    }
}
