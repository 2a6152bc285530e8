ghost use Rattle.std.specs.Prelude.{◌≡◌};
ghost use Rattle.reassembly.specs.Tables.{at};
ghost use Rattle.parameter_group.specs.Said.{said};
ghost use Rattle.live_station.specs.Ear.{is_own_by};
ghost use Rattle.live_station.specs.Ear as ear;
ghost use Rattle.live_station.specs.Working.{may_be_answered};

use name_field::Name;
use parameter_group::ParameterGroup;
use station_table::Station;
use transport::Took;

/// Whether a frame is from the station itself: a claim under its own NAME, or anything but a claim from the address that it holds.
pub fn is_own(name: Name, held: Option<u8>, group: &ParameterGroup<'_>, source: u8) -> bool
    ensures { result ≡ is_own_by name held source (said group.now) }
{
    match *group {
        ParameterGroup::AddressClaimed { name: by, .. } => by == name,
        ParameterGroup::CannotClaim { name: by } => by == name,
        _ => held == Some(source),
    }
}

/// Whether a frame, which says this, is a packet out of turn in the session from its source.
pub fn is_out_of_turn(station: &Station, group: &ParameterGroup<'_>, source: u8) -> bool
    ensures { result ≡ ear.is_out_of_turn station.now.claimer.held (at station.now.sessions source) (said group.now) }
{
    match *group {
        ParameterGroup::DataTransfer { dest, bytes, .. } if station.held() == Some(dest) => {
            breaks_session(station.answer(source, bytes))
        }
        _ => false,
    }
}

/// Whether a packet that is so answered is not the next one of what is half joined.
fn breaks_session(answer: Option<Took>) -> bool
    ensures { result ≡ ear.breaks_session answer }
{
    match answer {
        Some(Took::Broken) => true,
        _ => false,
    }
}

/// Whether a frame is one for which a station may put something beside what waits.
pub fn may_be_answered(group: &ParameterGroup<'_>) -> bool
    ensures { result ≡ may_be_answered (said group.now) }
{
    match group {
        ParameterGroup::Request(_)
        | ParameterGroup::ConnectionManagement { .. }
        | ParameterGroup::DataTransfer { .. } => true,
        _ => false,
    }
}
