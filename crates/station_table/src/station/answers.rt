ghost use Rattle.std.specs.Prelude.{◌≡◌, Some, OnOk};
ghost use Rattle.parameter_group.specs.Group as group;
ghost use Rattle.station_table.specs.Reactions as reactions;

use crate::reaction::Reaction;
use crate::station::Station;
use bus_model::Change;
use can_frame::{GLOBAL_ADDRESS, NULL_ADDRESS, Pgn};
use entry_lists::AckSeen;
use name_field::Name;
use requests::{Ack, Request};
use std::alloc::AllocError;

impl Station {
    ghost use Rattle.station_table.specs.Changing.{answers_again, group_changes};
    ghost use Rattle.station_table.specs.Steps.{after_group};

    /// A request, to the station or to all: for claims, its claim; for anything else, to it alone and from an address that
    /// can be held, a negative acknowledgment.
    pub(super) fn hear_request(
        &self,
        request: Request,
        reaction: &mut Reaction,
    ) -> Result<(), AllocError>
        requires silent { reaction.old ≡ reactions.silent }
        ensures { OnOk result (reaction.new ≡ reactions.request_reaction self.now.claimer request.pgn request.dest request.source) }
    {
        let to_it = self.claimer.held() == Some(request.dest);
        if request.pgn == Pgn::ADDRESS_CLAIMED {
            if to_it || request.dest == GLOBAL_ADDRESS {
                reaction.put.push(self.start())?;
            }
        } else if to_it && request.source < NULL_ADDRESS {
            let refusal = Ack {
                control: Ack::NEGATIVE,
                requester: request.source,
                pgn: request.pgn,
                dest: GLOBAL_ADDRESS,
                source: request.dest,
            };
            reaction.put.push(refusal.frame())?;
        }
        Ok(())
    }

    /// An acknowledgment that names the station's address or goes to it, from an address with an owner: it is kept.
    pub(super) fn hear_acknowledgment(&mut self, ack: Ack, change: &mut Change)
        requires nothing { change.old ≡ Change.Nothing }
        ensures step { self.new ≡ after_group self.old (group.Acknowledgment ack.control ack.requester ack.pgn ack.dest ack.source) }
        ensures change { change.new ≡ group_changes self.old
            (group.Acknowledgment ack.control ack.requester ack.pgn ack.dest ack.source) }
    {
        let held = self.claimer.held();
        if held != Some(ack.requester) && held != Some(ack.dest) {
            return;
        }
        let Some(name) = self.owner(ack.source) else {
            return;
        };
        let control = ack.control;
        let pgn = ack.pgn;
        let again = self.has_answered(name, control, pgn);
        self.rows.acknowledge(name, AckSeen { control, pgn });
        *change = Change::Acknowledged {
            name,
            control,
            pgn,
            again,
        };
    }

    /// Whether the NAME's last acknowledgment to the station is the same.
    fn has_answered(&self, name: Name, control: u8, pgn: Pgn) -> bool
        ensures { result ≡ answers_again self.now (Some name) control pgn }
    {
        match self.rows.get(name) {
            Some((_, Some(last))) => last.control == control && last.pgn == pgn,
            _ => false,
        }
    }
}
