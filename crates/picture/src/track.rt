ghost use Rattle.std.specs.Prelude.{◌≡◌, ◌<◌, ◌≤◌, ◌∷◌, [], ◌++◌, List, length, IfOk, OnOk, OnErr};
ghost use Rattle.picture.specs.Spans.{AreDrawnAs};
ghost use Rattle.picture.specs.Tracks.{Keeps};
ghost use Rattle.picture.specs.declared.span.Span.{Span as ASpan};

use crate::span::Span;
use std::alloc::{AllocError, Global};
use std::marker::Model;

/// Spans one after the other, so many at most, seen as these and how many may be.
#[derive(Drop)]
pub struct Track {
    spans: Vec<Span>,
    most: usize,
}

impl Model for Track {
    ghost use Rattle.std.specs.Prelude.{◌≤◌, vec_len};
    ghost use Rattle.picture.specs.Tracks.{TrackValue};

    ghost Value = { TrackValue };

    ghost view = { λ t. record { spans = t.spans.items; most = t.most } };

    ghost invariant = { λ t. (2 ≤ t.most) × (vec_len t.spans ≤ t.most) };
}

impl Track {
    /// A track that was told nothing, of at least two spans.
    pub fn new(alloc: Global, most: usize) -> Track
        requires { 2 ≤ most }
        ensures most { result.most ≡ most }
        ensures none { result.spans ≡ [] }
    {
        Track {
            spans: Vec::new(alloc),
            most,
        }
    }

    /// The same track once more.
    pub(crate) fn copy(&self, alloc: Global) -> Result<Track, AllocError>
        ensures { IfOk result (λ t. t ≡ self.now) }
    {
        let mut spans = Vec::new(alloc);
        spans.extend_from_slice(self.spans.as_slice())?;
        let most = self.most;
        Ok(Track { spans, most })
    }

    /// The spans that are kept.
    pub fn spans(&self) -> &[Span]
        ensures value { result.now ≡ self.now.spans }
        ensures bound { length result.now ≤ self.now.most }
    {
        self.spans.as_slice()
    }

    /// Takes a span that comes behind all others. Where there are as many as may be, neighbours are joined first that are short
    /// together.
    ///
    /// # Errors
    /// Memory was refused; what was told before is still drawn.
    pub fn add(&mut self, span: &Span) -> Result<(), AllocError>
        ensures same_bound { self.new.most ≡ self.old.most }
        ensures kept { OnOk result ((told : List ASpan) → Keeps told self.old → Keeps (told ++ span.now ∷ []) self.new) }
        ensures err { OnErr result ((told : List ASpan) → Keeps told self.old → AreDrawnAs told self.new.spans) }
    {
        if self.spans.len() >= self.most {
            return self.add_thinned(span);
        }
        self.add_whole(span)
    }

    /// Takes a span that there is room for.
    fn add_whole(&mut self, span: &Span) -> Result<(), AllocError>
        requires { length self.old.spans < self.old.most }
        ensures same_bound { self.new.most ≡ self.old.most }
        ensures kept { OnOk result ((told : List ASpan) → Keeps told self.old → Keeps (told ++ span.now ∷ []) self.new) }
        ensures err { OnErr result ((told : List ASpan) → Keeps told self.old → AreDrawnAs told self.new.spans) }
    {
        put(&mut self.spans, span)
    }

    /// Makes room, and takes a span.
    fn add_thinned(&mut self, span: &Span) -> Result<(), AllocError>
        requires { self.old.most ≤ length self.old.spans }
        ensures same_bound { self.new.most ≡ self.old.most }
        ensures kept { OnOk result ((told : List ASpan) → Keeps told self.old → Keeps (told ++ span.now ∷ []) self.new) }
        ensures err { OnErr result ((told : List ASpan) → Keeps told self.old → AreDrawnAs told self.new.spans) }
    {
        self.thin();
        put(&mut self.spans, span)
    }

    /// Joins neighbours, so that there is room for one more.
    fn thin(&mut self)
        requires { self.old.most ≤ length self.old.spans }
        ensures same_bound { self.new.most ≡ self.old.most }
        ensures drawn { (told : List ASpan) → AreDrawnAs told self.old.spans → AreDrawnAs told self.new.spans }
        ensures room { length self.new.spans < self.old.most }
    {
        let reach = self.reach();
        join_within(&mut self.spans, reach);
        if self.spans.len() >= self.most {
            join_newest(&mut self.spans);
        }
    }

    /// How long neighbours may be that are joined: so that about half of the spans are left.
    fn reach(&self) -> u64 {
        match (self.spans.first(), self.spans.last()) {
            (Some(first), Some(last)) => {
                let quarter = (self.most / 4).max(1) as u64;
                last.to.saturating_sub(first.from) / quarter
            }
            _ => 0,
        }
    }
}

/// Puts a span behind all others. Where memory is refused, nothing changes.
fn put(spans: &mut Vec<Span>, span: &Span) -> Result<(), AllocError>
    ensures ok { OnOk result (spans.new.items ≡ spans.old.items ++ span.now ∷ []) }
    ensures err { OnErr result (spans.new.items ≡ spans.old.items) }
{
    spans.push(*span)?;
    Ok(())
}

/// Joins neighbours that are together no longer than this.
#[tactic(auto, using(crate::proofs::Places::at_first, crate::proofs::Places::all_there))]
fn join_within(spans: &mut Vec<Span>, reach: u64)
    requires { 2 ≤ length spans.old.items }
    ensures drawn { (told : List ASpan) → AreDrawnAs told spans.old.items → AreDrawnAs told spans.new.items }
    ensures fewer { length spans.new.items ≤ length spans.old.items }
    ensures some { 0 < length spans.new.items }
{
    let mut last = 0;
    for place in 1..spans.len() {
        let next = spans[place];
        let both = spans[last].joined(&next);
        if both.length() <= reach {
            spans[last] = both;
        } else {
            last += 1;
            spans[last] = next;
        }
    }
    spans.truncate(last + 1);
}

/// Joins the newest two.
fn join_newest(spans: &mut Vec<Span>)
    requires { 2 ≤ length spans.old.items }
    ensures drawn { (told : List ASpan) → AreDrawnAs told spans.old.items → AreDrawnAs told spans.new.items }
    ensures fewer { length spans.new.items < length spans.old.items }
{
    let newest = spans.len() - 1;
    let both = spans[newest - 1].joined(&spans[newest]);
    spans[newest - 1] = both;
    spans.truncate(newest);
}
