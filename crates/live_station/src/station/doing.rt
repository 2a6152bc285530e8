ghost use Rattle.std.specs.Prelude.{◌≡◌, Some, false, true};
ghost use Rattle.live_station.specs.Working.{DoesDeed, DoesTurn, IsSentFromOwn, IsUnordered, SendsWaiting, asked_for_claims};
ghost use Rattle.live_unit.specs.Times.{lane_due};
ghost use Rattle.station_table.specs.Reactions.{request_for_claims};

use crate::going::{clear_from_claim, clear_from_end, go_on, source_of, wait_on};
use crate::loss::Watch;
use crate::open::{ANSWER_WAIT, OpenOrder, Part};
use crate::pulled::Pulled;
use crate::station::LiveStation;
use crate::turn::{Deed, Turn};
use crate::verdict::Finding;
use can_frame::{GLOBAL_ADDRESS, Pgn};
use live_unit::{Lane, lane_due};
use requests::{Commanded, Request};
use transport::{control_frame, message_part};

impl LiveStation {
    /// Writes the first frame of a lane.
    #[tactic(auto, using(live_unit::proofs::Timing::due_waits, crate::proofs::Owing::owes_after_taking, crate::proofs::Owing::owed_in_lane))]
    pub(super) fn write_waiting(&mut self, lane: Lane, now: u64) -> Pulled
        requires due { lane_due self.old.clock now self.old.queue ≡ Some lane }
        ensures sends { SendsWaiting now lane result self.old self.new }
        ensures source { IsSentFromOwn result self.old.station }
        ensures unordered { IsUnordered result self.old.station }
    {
        self.clear_from = clear_from_claim(lane, self.clock.claimed, now, self.clear_from);
        let out = self.queue.take(lane);
        self.clock.write(&self.settings, lane, now);
        self.echo.write(out.frame);
        Pulled::Frame {
            frame: out.frame,
            of_order: false,
        }
    }

    /// Asks for the claims of all.
    #[tactic(auto, using(crate::proofs::Sources::request_from_own))]
    pub(super) fn ask_claims(&mut self, now: u64) -> Pulled
        ensures is { self.new ≡ asked_for_claims now self.old }
        ensures pulled { result ≡ Pulled.Frame (request_for_claims self.old.station.claimer) false }
        ensures source { IsSentFromOwn result self.old.station }
    {
        let request = Request {
            pgn: Pgn::ADDRESS_CLAIMED,
            dest: GLOBAL_ADDRESS,
            source: source_of(self.station.held()),
        };
        let frame = request.frame();
        self.asks_claims = false;
        self.claims_by = now.saturating_add(ANSWER_WAIT);
        self.echo.write(frame);
        Pulled::Frame {
            frame,
            of_order: false,
        }
    }

    /// Asks for packets that are missing of the session of a watch, or gives that up.
    pub(super) fn ask_again(&mut self, watch: Watch, now: u64) -> Pulled
        ensures does { DoesTurn (Turn.AsksAgain watch) now result self.old self.new }
        ensures source { IsSentFromOwn result self.old.station }
        ensures unordered { IsUnordered result self.old.station }
    {
        let Some(session) = self.station.session(watch.source) else {
            return Pulled::Nothing;
        };
        let control = watch.control(session);
        let frame = control_frame(control, source_of(self.station.held()), watch.source);
        if !watch.is_asked_enough(session) {
            self.order = wait_on(self.order, watch.source, now);
        }
        self.losses.ask(watch, session, now);
        self.echo.write(frame);
        Pulled::Frame {
            frame,
            of_order: false,
        }
    }

    /// Does what the open order does at this time.
    pub(super) fn carry_out(&mut self, going: OpenOrder, deed: Deed, now: u64) -> Pulled
        ensures does { DoesDeed deed now going result self.old self.new }
        ensures source { IsSentFromOwn result self.old.station }
        ensures unordered { IsUnordered result self.old.station }
    {
        match deed {
            Deed::Nothing => Pulled::Nothing,
            Deed::Request { to } => self.write_request(going, to, now),
            Deed::Command {
                name,
                address,
                part,
            } => {
                let command = Commanded { name, address };
                self.write_part(going, command, part, now)
            }
            Deed::Ends(finding) => self.end(going, finding, now),
        }
    }

    /// Writes the request of the open order.
    #[tactic(auto, using(crate::proofs::Sources::request_from_own))]
    fn write_request(&mut self, going: OpenOrder, to: u8, now: u64) -> Pulled
        ensures does { DoesDeed (Deed.Request to) now going result self.old self.new }
        ensures source { IsSentFromOwn result self.old.station }
        ensures unordered { IsUnordered result self.old.station }
    {
        let own = source_of(self.station.held());
        let request = Request {
            pgn: going.order.pgn(),
            dest: to,
            source: own,
        };
        let frame = request.frame();
        self.order = Some(going.write_request(own, to, now));
        self.echo.write(frame);
        Pulled::Frame {
            frame,
            of_order: true,
        }
    }

    /// Writes a frame of a command.
    #[tactic(auto, using(crate::proofs::Sources::part_from_own))]
    fn write_part(&mut self, going: OpenOrder, command: Commanded, part: Part, now: u64) -> Pulled
        ensures does { DoesDeed (Deed.Command command.name command.address part) now going result self.old self.new }
        ensures source { IsSentFromOwn result self.old.station }
        ensures unordered { IsUnordered result self.old.station }
    {
        let own = source_of(self.station.held());
        let payload = command.to_bytes();
        let frame = message_part(
            &payload,
            Pgn::COMMANDED_ADDRESS,
            own,
            GLOBAL_ADDRESS,
            part.number(),
        );
        self.order = Some(going.write_part(own, part, now));
        self.clock.write(&self.settings, Lane::Messages, now);
        self.echo.write(frame);
        Pulled::Frame {
            frame,
            of_order: true,
        }
    }

    /// The open order came to this.
    fn end(&mut self, going: OpenOrder, finding: Finding, now: u64) -> Pulled
        ensures does { DoesDeed (Deed.Ends finding) now going result self.old self.new }
        ensures source { IsSentFromOwn result self.old.station }
        ensures unordered { IsUnordered result self.old.station }
    {
        self.clear_from = clear_from_end(going.order, finding, now, self.clear_from);
        match go_on(&mut self.order, Some(going.end(finding, now))) {
            Some(verdict) => Pulled::Verdict(verdict),
            None => Pulled::Nothing,
        }
    }
}
