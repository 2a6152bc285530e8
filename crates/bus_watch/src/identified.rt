ghost use Rattle.std.specs.Prelude.{◌≡◌, false, Some, None, slice_set, IfOk, IfSome, IsSome, OnOk, OnErr};
ghost use Rattle.std.specs.Option.{option_copied};
ghost use Rattle.bus_model.specs.declared.who.Who.{Who as AnyWho};
ghost use Rattle.reassembly.specs.Pairs.{no_pairs, pair_at, with_pair};
ghost use Rattle.reassembly.specs.Partials.{after_packet, answer_to, with_packet};
ghost use Rattle.transport.specs.Pieces.{joined};
ghost use Rattle.reassembly.specs.Tables.{empty_table};
ghost use Rattle.bus_watch.specs.Identified as identified;

use crate::half_text::HalfText;
use crate::half_texts::HalfTexts;
use crate::teller::Teller;
use crate::text_list::{TextList, UnitText};
use can_frame::GLOBAL_ADDRESS;
use std::alloc::{AllocError, Global};
use std::marker::Model;
use transport::{Control, Took};

/// What units tell of themselves: what is half read, and the newest text of each unit and identification.
///
/// It takes the memory for what is half read at the first identification in several packets.
#[derive(Drop)]
pub(crate) struct Identified {
    half: Option<HalfTexts>,
    kept: TextList,
    told: Option<Teller>,
}

/// Seen as those.
impl Model for Identified {
    ghost use Rattle.bus_watch.specs.Identified.{IdentifiedValue, halves_of};

    ghost Value = { IdentifiedValue };

    ghost view = { λ v. record { half = halves_of v.half; kept = v.kept } };
}

impl Identified {
    /// Nothing was read.
    pub(crate) fn new(alloc: Global) -> Result<Identified, AllocError>
        ensures { IfOk result (λ v. v ≡ identified.none_identified) }
    {
        let kept = TextList::new(alloc)?;
        Ok(Identified {
            half: None,
            kept,
            told: None,
        })
    }

    /// The texts that were told.
    pub(crate) fn kept(&self) -> &TextList
        ensures { result.now ≡ self.now.kept }
    {
        &self.kept
    }

    /// Whose identification, and which, the newest line told that was not told before.
    pub(crate) fn told(&self) -> Option<Teller> {
        self.told
    }

    /// A line is read.
    pub(crate) fn clear_told(&mut self)
        ensures { self.new ≡ self.old }
    {
        self.told = None;
    }

    /// Whether any may be half read.
    pub(crate) fn may_be_half_read(&self) -> bool
        ensures { result ≡ false → self.now.half ≡ no_pairs }
    {
        self.half.is_some()
    }

    /// What is half read between two addresses.
    #[tactic(auto, using(crate::proofs::IdentifiedTables::none_between))]
    pub(crate) fn half(&self, source: u8, dest: u8) -> Option<&HalfText>
        ensures { option_copied result ≡ pair_at self.now.half source dest }
    {
        match &self.half {
            Some(halves) => halves.get(source, dest),
            None => None,
        }
    }

    /// One is announced between two addresses. Gives what was half read between them. Where memory is refused, nothing changes.
    pub(crate) fn begin(
        &mut self,
        alloc: Global,
        source: u8,
        dest: u8,
        half: HalfText,
    ) -> Result<Option<HalfText>, AllocError>
        ensures before { IfOk result (λ o. o ≡ pair_at self.old.half source dest) }
        ensures ok { OnOk result (self.new ≡ record self.old { half = with_pair self.old.half source dest (Some half) }) }
        ensures there { OnOk result (IsSome (pair_at self.new.half source dest)) }
        ensures err { OnErr result (self.new ≡ self.old) }
    {
        match &mut self.half {
            Some(halves) => halves.begin(source, dest, half),
            None => self.begin_first(alloc, source, dest, half),
        }
    }

    /// The first one is announced.
    fn begin_first(
        &mut self,
        alloc: Global,
        source: u8,
        dest: u8,
        half: HalfText,
    ) -> Result<Option<HalfText>, AllocError>
        requires { self.old.half ≡ no_pairs }
        ensures before { IfOk result (λ o. o ≡ pair_at self.old.half source dest) }
        ensures ok { OnOk result (self.new ≡ record self.old { half = with_pair self.old.half source dest (Some half) }) }
        ensures there { OnOk result (IsSome (pair_at self.new.half source dest)) }
        ensures err { OnErr result (self.new ≡ self.old) }
    {
        let mut halves = HalfTexts::new(alloc)?;
        let before = halves.begin(source, dest, half)?;
        self.half = Some(halves);
        Ok(before)
    }

    /// What is half read between two addresses is what it was before another one was announced.
    #[tactic(auto, using(crate::proofs::IdentifiedTables::none_between))]
    pub(crate) fn restore(&mut self, source: u8, dest: u8, before: Option<HalfText>)
        requires { IsSome (pair_at self.old.half source dest) }
        ensures { self.new ≡ record self.old { half = with_pair self.old.half source dest before } }
    {
        let Some(halves) = &mut self.half else {
            unreachable!()
        };
        halves.restore(source, dest, before);
    }

    /// A message of connection management that announces no identification came from a source to a destination.
    #[tactic(auto, using(crate::proofs::IdentifiedTables::bam_of_other, crate::proofs::IdentifiedTables::rts_of_other))]
    pub(crate) fn manage(&mut self, source: u8, dest: u8, control: Control)
        requires { identified.text_announced dest control ≡ None }
        ensures { (who : AnyWho) → self.new ≡ record self.old { half = identified.halves_managed who source dest control self.old.half } }
    {
        match control {
            Control::Bam { .. } if dest == GLOBAL_ADDRESS => self.forget(source, dest),
            Control::Rts { .. } if dest != GLOBAL_ADDRESS => self.forget(source, dest),
            Control::Abort { .. } => {
                self.end_session(source, dest);
                self.end_session(dest, source);
            }
            _ => {}
        }
    }

    /// A session ends; a message to all does not.
    fn end_session(&mut self, source: u8, dest: u8)
        ensures { self.new ≡ record self.old { half = identified.without_text_between source dest self.old.half } }
    {
        if dest != GLOBAL_ADDRESS {
            self.forget(source, dest);
        }
    }

    /// What was half read between two addresses is dropped.
    #[tactic(auto, using(crate::proofs::IdentifiedTables::none_dropped))]
    fn forget(&mut self, source: u8, dest: u8)
        ensures { self.new ≡ record self.old { half = with_pair self.old.half source dest None } }
    {
        if let Some(halves) = &mut self.half {
            halves.forget(source, dest);
        }
    }

    /// All that is half read from a source is dropped.
    #[tactic(auto, using(crate::proofs::IdentifiedTables::no_source_dropped))]
    pub(crate) fn forget_from(&mut self, source: u8)
        ensures { self.new ≡ record self.old { half = slice_set self.old.half source empty_table } }
    {
        if let Some(halves) = &mut self.half {
            halves.forget_from(source);
        }
    }

    /// All that is half read is dropped.
    pub(crate) fn start_over(&mut self)
        ensures { self.new ≡ identified.identified_anew self.old }
    {
        self.half = None;
    }

    /// A packet was read that was answered so: the message between two addresses grows by it, or is no longer half read.
    #[tactic(auto, using(crate::proofs::IdentifiedTables::goes_on, crate::proofs::IdentifiedTables::ends, crate::proofs::IdentifiedTables::breaks))]
    pub(crate) fn read(&mut self, source: u8, dest: u8, packet: &[u8], took: Took)
        requires { answer_to packet.now (pair_at self.old.half source dest) ≡ Some took }
        ensures { self.new ≡ record self.old { half = with_pair self.old.half source dest (after_packet packet.now (pair_at self.old.half source dest)) } }
    {
        match took {
            Took::More => self.grow(source, dest, packet),
            Took::Whole | Took::Broken => self.forget(source, dest),
        }
    }

    /// The message between two addresses grows by a packet that is its next one.
    #[tactic(auto, using(crate::proofs::IdentifiedTables::none_between))]
    fn grow(&mut self, source: u8, dest: u8, packet: &[u8])
        requires { answer_to packet.now (pair_at self.old.half source dest) ≡ Some Took.More }
        ensures { self.new ≡ record self.old { half = with_pair self.old.half source dest (with_packet packet.now (pair_at self.old.half source dest)) } }
    {
        let Some(halves) = &mut self.half else {
            unreachable!()
        };
        halves.grow(source, dest, packet);
    }

    /// What is told by the message between two addresses, which ends with this packet and is dropped.
    #[tactic(auto, using(crate::proofs::IdentifiedTables::none_between))]
    pub(crate) fn finish(&mut self, source: u8, dest: u8, packet: &[u8]) -> UnitText
        requires { answer_to packet.now (pair_at self.old.half source dest) ≡ Some Took.Whole }
        ensures left { self.new ≡ record self.old { half = with_pair self.old.half source dest None } }
        ensures text { IfSome (with_packet packet.now (pair_at self.old.half source dest)) (λ p. result ≡ record { teller = p.tag; text = identified.text_of p.tag.what (joined p.size p.pieces) }) }
    {
        let Some(halves) = &mut self.half else {
            unreachable!()
        };
        halves.finish(source, dest, packet)
    }

    /// A unit told a text.
    pub(crate) fn keep(&mut self, unit: UnitText)
        ensures { self.new ≡ record self.old { kept = identified.with_told unit.teller unit.text self.old.kept } }
    {
        let teller = unit.teller;
        if self.kept.tell(unit) {
            self.told = Some(teller);
        }
    }
}
