ghost use Rattle.std.specs.Prelude.{◌≡◌, ◌≤◌, IsFalse, IsTrue};
ghost use Rattle.can_frame.specs.declared.address.TheConstants.{GREATEST_ADDRESS};

use crate::acceptance::Acceptance;
use crate::node::Node;
use can_frame::GREATEST_ADDRESS;
use name_field::Name;

impl Node {
    ghost use Rattle.node_core.specs.Deed.{Nothing};
    ghost use Rattle.node_core.specs.Passing.{Absorbs};
    ghost use Rattle.node_core.specs.Reaction.{noted_from, on_claim};
    ghost use Rattle.parameter_group.specs.Group.{AddressClaimed};

    /// Absorbs a frame by its acceptance. Returns whether it could.
    ///
    /// - True: the frame asks nothing of the unit and makes it do nothing. What it tells is kept: a claim, or a part of a commanded
    ///   address.
    /// - False: the frame is to be heard in full, and the node is as it was.
    ///
    /// Takes no memory: what would take some, as the first claim of an address, is to be heard in full.
    #[inline(always)]
    pub fn absorb(&mut self, acceptance: &Acceptance) -> bool
        ensures absorbed { IsTrue result → Absorbs acceptance.now self.old self.new }
        ensures left { IsFalse result → self.new ≡ self.old }
    {
        match acceptance {
            Acceptance::Ignored => true,
            _ => self.absorb_any(acceptance),
        }
    }

    /// As `absorb`, for what is not ignored by all.
    ///
    /// Most of it are packets of sources from which nothing is half joined.
    #[inline(never)]
    fn absorb_any(&mut self, acceptance: &Acceptance) -> bool
        ensures absorbed { IsTrue result → Absorbs acceptance.now self.old self.new }
        ensures left { IsFalse result → self.new ≡ self.old }
    {
        if self.is_stray(acceptance) {
            return true;
        }
        self.absorb_rest(acceptance)
    }

    /// A short test whether it is a packet that joins nothing. False says nothing.
    #[inline(always)]
    #[tactic(auto, using(crate::proofs::Accepting::nothing_joined))]
    fn is_stray(&self, acceptance: &Acceptance) -> bool
        ensures { IsTrue result → Absorbs acceptance.now self.now self.now }
    {
        match acceptance {
            Acceptance::Packet { source, .. } => self.partial_commands.is_none_from(*source),
            _ => false,
        }
    }

    /// As `absorb_any`, for what the short test does not tell.
    #[inline(never)]
    fn absorb_rest(&mut self, acceptance: &Acceptance) -> bool
        ensures absorbed { IsTrue result → Absorbs acceptance.now self.old self.new }
        ensures left { IsFalse result → self.new ≡ self.old }
    {
        match acceptance {
            Acceptance::Ignored => true,
            Acceptance::Addressed(address) => !self.is_addressed(*address),
            Acceptance::Claim { source, name } => {
                *source <= GREATEST_ADDRESS && self.renote_claim(*source, *name)
            }
            Acceptance::Announcement { source, starts } => {
                *source <= GREATEST_ADDRESS && self.partial_commands.announce(*source, *starts)
            }
            Acceptance::Packet { source, frame } => {
                let name = self.claimer.name();
                *source <= GREATEST_ADDRESS
                    && self
                        .partial_commands
                        .absorb_packet(name, *source, frame.bytes())
            }
        }
    }

    /// Notes a claim of an address of which one was noted before. Returns whether it did.
    ///
    /// False, with nothing changed, if it is the first of its address, or the address is held or the session's destination.
    #[inline(never)]
    fn renote_claim(&mut self, source: u8, name: Name) -> bool
        requires { source ≤ GREATEST_ADDRESS }
        ensures idle { IsTrue result → on_claim self.old source name ≡ Nothing }
        ensures noted { IsTrue result → self.new ≡ noted_from self.old (AddressClaimed source name) }
        ensures left { IsFalse result → self.new ≡ self.old }
    {
        if self.is_held(source) || self.is_destination(source) {
            return false;
        }
        let Some(last) = self.claimer.renote(source, name) else {
            return false;
        };
        if last != name {
            self.partial_commands.forget(source);
        }
        true
    }
}
