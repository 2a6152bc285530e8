ghost use Rattle.std.specs.Prelude.{◌≡◌, ◌<◌};
ghost use Rattle.reassembly.specs.Partials.{took_by, with_packet};
ghost use Rattle.station_table.specs.Reactions.{packet_reply};
ghost use Rattle.station_table.specs.Steps.{packets_at_once};
ghost use Rattle.std.specs.Prelude.{Some};

use crate::origin::Origin;
use reassembly::Partial;
use transport::{Control, Took, packets};

/// How many packets a grant gives at most: the least of the station's grant and of what the sender takes at once, where 0
/// is no limit.
pub fn at_once(grant: u8, most: u8) -> u8
    requires { 0 < grant }
    ensures value { result ≡ packets_at_once grant most }
    ensures positive { 0 < result }
{
    if most == 0 { grant } else { grant.min(most) }
}

/// What the station answers to a packet of a session, which was answered so.
#[tactic(auto, using(crate::proofs::Joinings::reply_more, crate::proofs::Joinings::reply_broken, crate::proofs::Joinings::reply_whole, crate::proofs::Joinings::next_number, crate::proofs::Joinings::next_length, crate::proofs::Joinings::still_missing))]
pub fn reply(session: &Partial<Origin>, at_once: u8, packet: &[u8], took: Took) -> Option<Control>
    requires positive { 0 < at_once }
    requires answered { took_by (with_packet packet.now (Some session.now)) ≡ took }
    ensures { result ≡ packet_reply at_once session.now (with_packet packet.now (Some session.now)) }
{
    let size = session.size();
    let packets = packets(size);
    let pgn = session.tag().kind().pgn();
    match took {
        Took::Broken => Some(Control::Abort {
            reason: Control::RESOURCES_NEEDED,
            pgn,
        }),
        Took::Whole => Some(Control::EndAck { size, packets, pgn }),
        Took::More => {
            let taken = packet[0];
            if taken % at_once == 0 {
                Some(Control::Cts {
                    granted: at_once.min(packets - taken),
                    next: taken + 1,
                    pgn,
                })
            } else {
                None
            }
        }
    }
}
