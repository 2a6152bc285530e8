//! Frames that ask nothing of a unit.
ghost use Rattle.std.specs.Prelude.{ℕ, ◌≡◌, IsFalse, IsTrue};
ghost use Rattle.can_frame.specs.FrameValue.{FrameValue};
ghost use Rattle.fault_memory.specs.Memory.{MemoryValue};
ghost use Rattle.node_core.specs.Passing.{IsAcceptance};
ghost use Rattle.node_core.specs.declared.heard.Answer.{Answer as AnyAnswer};
ghost use Rattle.live_unit.specs.Steps.{HasHeardFrame, clock_heard, standing};

use super::LiveNode;
use node_core::Acceptance;

impl LiveNode {
    /// Passes over a frame, by its acceptance, which is found once for all units; answers whether it could: where the frame asks
    /// nothing of the unit and makes it do nothing. Then it counts as heard, whatever unit the node has. Else nothing changed, and it
    /// is to be heard.
    #[tactic(auto, using(crate::proofs::Passing::heard_quietly, crate::proofs::Passing::clock_quietly))]
    pub fn pass_over(&mut self, acceptance: &Acceptance) -> bool
        ensures heard { IsTrue result → (f : FrameValue) (m : MemoryValue) → IsAcceptance acceptance.now f
            → HasHeardFrame f self.old.clock.asked AnyAnswer.NotAsked (standing self.old.node m self.old.queue)
            (standing self.new.node m self.new.queue) }
        ensures clock { IsTrue result → (f : FrameValue) (name now : ℕ) → IsAcceptance acceptance.now f
            → self.new.clock ≡ clock_heard f name now self.old.node self.old.queue self.new.node self.new.queue self.old.clock }
        ensures left { IsFalse result → (self.new.node ≡ self.old.node) × (self.new.clock ≡ self.old.clock) }
        ensures queue { self.new.queue ≡ self.old.queue }
        ensures settings { self.new.settings ≡ self.old.settings }
    {
        let has_session = self.node.session().is_some();
        if !self.node.absorb(acceptance) {
            return false;
        }
        self.clock.ask(None, has_session);
        true
    }
}
