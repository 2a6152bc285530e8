ghost use Rattle.std.specs.Prelude.{◌≡◌, Some, None, IfOk, IfSome, IsSome, OnOk, OnErr, replicate, slice_set};
ghost use Rattle.std.specs.Option.{option_copied};
ghost use Rattle.reassembly.specs.Pairs.{no_pairs, pair_at, with_pair};
ghost use Rattle.reassembly.specs.Partials.{after_packet, answer_to, with_packet};
ghost use Rattle.reassembly.specs.Tables.{at, empty_table};
ghost use Rattle.transport.specs.Pieces.{joined};
ghost use Rattle.bus_watch.specs.Identified.{text_of};

use crate::half_text::HalfText;
use crate::text_list::UnitText;
use reassembly::AddressTable;
use std::alloc::{AllocError, Global};
use std::marker::Model;
use transport::Took;

/// The identifications half read from one source, by their destination.
#[derive(Drop)]
struct FromSource {
    table: AddressTable<HalfText>,
}

impl Model for FromSource {
    ghost use Rattle.std.specs.Prelude.{List, Option};
    ghost use Rattle.bus_watch.specs.Identified.{HalfTold};

    ghost Value = { List (Option HalfTold) };

    ghost view = { λ f. f.table.slots };
}

impl FromSource {
    /// None. It takes no memory.
    fn new(alloc: Global) -> FromSource
        ensures { result ≡ empty_table }
    {
        FromSource {
            table: AddressTable::new(alloc),
        }
    }

    /// What is half read to an address.
    fn get(&self, dest: u8) -> Option<&HalfText>
        ensures { option_copied result ≡ at self.now dest }
    {
        self.table.get(dest)
    }

    /// One to an address is announced. Gives what was half read to there. Where memory is refused, nothing changes.
    #[tactic(auto, using(reassembly::proofs::TableLemmas::put_instead))]
    fn begin(&mut self, dest: u8, half: HalfText) -> Result<Option<HalfText>, AllocError>
        ensures before { IfOk result (λ o. o ≡ at self.old dest) }
        ensures ok { OnOk result (self.new ≡ slice_set self.old dest (Some half)) }
        ensures there { OnOk result (at self.new dest ≡ Some half) }
        ensures err { OnErr result (self.new ≡ self.old) }
    {
        self.table.make()?;
        let before = self.table.take(dest);
        self.table.put(dest, half);
        Ok(before)
    }

    /// What is half read to an address is what it was before another one was announced.
    #[tactic(auto, using(reassembly::proofs::TableLemmas::put_instead))]
    fn restore(&mut self, dest: u8, before: Option<HalfText>)
        requires { IsSome (at self.old dest) }
        ensures { self.new ≡ slice_set self.old dest before }
    {
        let Some(_) = self.table.take(dest) else {
            unreachable!()
        };
        if let Some(half) = before {
            self.table.put(dest, half);
        }
    }

    /// What was half read to an address is dropped.
    fn forget(&mut self, dest: u8)
        ensures { self.new ≡ slice_set self.old dest None }
    {
        self.table.forget(dest);
    }

    /// All that is half read is dropped.
    fn clear(&mut self)
        ensures { self.new ≡ empty_table }
    {
        self.table.clear();
    }

    /// The message to an address grows by a packet that is its next one. It takes no memory.
    #[tactic(auto, using(reassembly::proofs::TableLemmas::put_instead))]
    fn grow(&mut self, dest: u8, packet: &[u8])
        requires { answer_to packet.now (at self.old dest) ≡ Some Took.More }
        ensures { self.new ≡ slice_set self.old dest (with_packet packet.now (at self.old dest)) }
    {
        let Some(mut half) = self.table.take(dest) else {
            unreachable!()
        };
        half.add(packet);
        self.table.put(dest, half);
    }

    /// What is told by the message to an address, which ends with this packet and is dropped.
    fn finish(&mut self, dest: u8, packet: &[u8]) -> UnitText
        requires { answer_to packet.now (at self.old dest) ≡ Some Took.Whole }
        ensures left { self.new ≡ slice_set self.old dest None }
        ensures text { IfSome (with_packet packet.now (at self.old dest)) (λ p. result ≡ record { teller = p.tag; text = text_of p.tag.what (joined p.size p.pieces) }) }
    {
        let Some(mut half) = self.table.take(dest) else {
            unreachable!()
        };
        half.add(packet);
        half.text()
    }
}

/// The identifications half read, by the address that they come from and the one that they go to: at most one of each pair.
///
/// It has a table for each source, which takes its memory at the first one from there.
#[derive(Drop)]
pub(crate) struct HalfTexts {
    sources: Vec<FromSource>,
}

impl Model for HalfTexts {
    ghost use Rattle.std.specs.Prelude.{◌≡◌, List, Option, length};
    ghost use Rattle.bus_watch.specs.Identified.{HalfTold};

    ghost Value = { List (List (Option HalfTold)) };

    ghost view = { λ h. h.sources.items };

    ghost invariant = { λ h. length h.sources.items ≡ 256 };
}

impl HalfTexts {
    /// None between any two addresses.
    #[tactic(auto, unfolding(reassembly::specs::Pairs::no_pairs))]
    pub(crate) fn new(alloc: Global) -> Result<HalfTexts, AllocError>
        ensures { IfOk result (λ h. h ≡ no_pairs) }
    {
        let sources = no_sources(alloc)?;
        Ok(HalfTexts { sources })
    }

    /// What is half read between two addresses.
    pub(crate) fn get(&self, source: u8, dest: u8) -> Option<&HalfText>
        ensures { option_copied result ≡ pair_at self.now source dest }
    {
        self.sources[usize::from(source)].get(dest)
    }

    /// One is announced between two addresses. Gives what was half read between them. Where memory is refused, nothing changes.
    pub(crate) fn begin(
        &mut self,
        source: u8,
        dest: u8,
        half: HalfText,
    ) -> Result<Option<HalfText>, AllocError>
        ensures before { IfOk result (λ o. o ≡ pair_at self.old source dest) }
        ensures ok { OnOk result (self.new ≡ with_pair self.old source dest (Some half)) }
        ensures there { OnOk result (IsSome (pair_at self.new source dest)) }
        ensures err { OnErr result (self.new ≡ self.old) }
    {
        self.sources[usize::from(source)].begin(dest, half)
    }

    /// What is half read between two addresses is what it was before another one was announced.
    pub(crate) fn restore(&mut self, source: u8, dest: u8, before: Option<HalfText>)
        requires { IsSome (pair_at self.old source dest) }
        ensures { self.new ≡ with_pair self.old source dest before }
    {
        self.sources[usize::from(source)].restore(dest, before);
    }

    /// What was half read between two addresses is dropped.
    pub(crate) fn forget(&mut self, source: u8, dest: u8)
        ensures { self.new ≡ with_pair self.old source dest None }
    {
        self.sources[usize::from(source)].forget(dest);
    }

    /// All that is half read from a source is dropped.
    pub(crate) fn forget_from(&mut self, source: u8)
        ensures { self.new ≡ slice_set self.old source empty_table }
    {
        self.sources[usize::from(source)].clear();
    }

    /// The message between two addresses grows by a packet that is its next one.
    pub(crate) fn grow(&mut self, source: u8, dest: u8, packet: &[u8])
        requires { answer_to packet.now (pair_at self.old source dest) ≡ Some Took.More }
        ensures { self.new ≡ with_pair self.old source dest (with_packet packet.now (pair_at self.old source dest)) }
    {
        self.sources[usize::from(source)].grow(dest, packet);
    }

    /// What is told by the message between two addresses, which ends with this packet and is dropped.
    pub(crate) fn finish(&mut self, source: u8, dest: u8, packet: &[u8]) -> UnitText
        requires { answer_to packet.now (pair_at self.old source dest) ≡ Some Took.Whole }
        ensures left { self.new ≡ with_pair self.old source dest None }
        ensures text { IfSome (with_packet packet.now (pair_at self.old source dest)) (λ p. result ≡ record { teller = p.tag; text = text_of p.tag.what (joined p.size p.pieces) }) }
    {
        self.sources[usize::from(source)].finish(dest, packet)
    }
}

/// A table for each source, in which nothing is half read.
fn no_sources(alloc: Global) -> Result<Vec<FromSource>, AllocError>
    ensures { IfOk result (λ sources. sources.items ≡ replicate 256 empty_table) }
{
    let mut sources = Vec::with_capacity(alloc, 256)?;
    for _ in 0..256u16 {
        sources.push_reserved(FromSource::new(alloc));
    }
    Ok(sources)
}
