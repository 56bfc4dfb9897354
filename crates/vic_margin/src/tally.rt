//! In how many slots the UIDs of each part were overlooked.

ghost use Rattle.std.specs.Prelude.{◌≡◌, ◌==◌, ◌+◌, ◌-◌, ◌^◌, ◌<◌, ◌≤◌, ◌&&◌, ◌||◌, not, false, ℕ, List, IfOk, Some, length, slice_get, slice_index, slice_set};
ghost use Rattle.vic_log.specs.declared.entry.Entry.{Entry as EntryValue};
ghost use Rattle.vic_log.specs.declared.entry.Entry.TheVariants.{Sent};
ghost use Rattle.vic_walk.specs.Marked.{is_marked};
ghost use Rattle.vic_margin.specs.inner.Counts.{count_at};
ghost use Rattle.vic_margin.specs.inner.Trees.{within};
ghost use Rattle.vic_walk.specs.Steps.{IsStepBelow, IsEntryAt};

use crate::counts::Counts;
use std::alloc::{AllocError, Global};
use vic_frame::{Request, Uid};
use vic_log::Entry;
use vic_walk::{Marks, Parts, Span, Step};

/// What is known of each part before a position of a log.
#[derive(Drop)]
pub(crate) struct Tally {
    /// In how many slots that were silent, or in which a tag was heard alone, its UIDs lie in the
    /// mask.
    pub counts: Counts,
    /// While its UIDs are Ready, in how many of these they weren't overlooked, since they were
    /// Quiet there, or it was their reply. While they are Quiet, in how many they were.
    pub rest: Vec<u32>,
    /// Whether they are Quiet.
    pub quiet: Marks,
    ghost leaves: { length rest.items ≤ counts.leaves },
    ghost marks: { length quiet ≡ length rest.items },
    ghost least: { (p : ℕ) → p < length rest.items
        → slice_index rest.items p ≤ count_at counts p },
}

impl Tally {
    ghost use Rattle.vic_margin.specs.inner.Tallies.{AreMargins, IsCounted, IsTallyAt, IsTurned};

    /// The tally before the first entry.
    pub(crate) fn start(alloc: Global, parts: &Parts) -> Result<Tally, AllocError>
        ensures { IfOk result (λ t. (es : List EntryValue) → IsTallyAt parts.now es 0 t) }
    {
        Ok(Tally {
            counts: Counts::none(alloc, parts)?,
            rest: vec![in alloc; 0; parts.count()]?,
            quiet: Marks::none(alloc, parts.count())?,
        })
    }

    /// Turns the rest of a part into what is left of its count: as the UIDs of the part become
    /// Quiet, or Ready again.
    fn turn(&mut self, part: usize)
        requires { part < length self.old.rest.items }
        ensures rest { self.new.rest.items ≡ slice_set self.old.rest.items part
            (count_at self.old.counts part - slice_index self.old.rest.items part) }
        ensures counts { self.new.counts ≡ self.old.counts }
        ensures quiet { self.new.quiet ≡ self.old.quiet }
    {
        let left = self.counts.at(part) - self.rest[part];
        self.rest[part] = left;
    }

    /// Makes a part Quiet.
    fn silence(&mut self, part: usize)
        requires { part < length self.old.rest.items }
        ensures turned { IsTurned (λ p. p == part && not (is_marked self.old.quiet part))
            self.old self.new }
        ensures quiet { (p : ℕ) → is_marked self.new.quiet p
            ≡ (p == part || is_marked self.old.quiet p) }
    {
        if !self.quiet.has(part) {
            self.turn(part);
            self.quiet.put(part);
        }
    }

    /// Makes all parts Ready.
    fn wake(&mut self)
        ensures turned { IsTurned (is_marked self.old.quiet) self.old self.new }
        ensures quiet { (p : ℕ) → is_marked self.new.quiet p ≡ false }
    {
        let mut from = 0;
        while let Some(part) = self.quiet.first(from, self.rest.len()) {
            self.turn(part);
            self.quiet.take(part);
            from = part + 1;
        }
    }

    /// Counts a slot in which the UID of part `own` was heard alone, but not for that UID.
    fn hear(&mut self, span: Span, own: usize)
        requires within { span.to ≤ length self.old.rest.items }
        requires own { own < length self.old.rest.items }
        requires few { self.old.counts.raised + 1 < 2 ^ 32 }
        ensures { IsCounted span (λ p. p == own && (within span.from span.to own
            && not (is_marked self.old.quiet own))) self.old self.new }
    {
        self.counts.raise(span);
        if span.has(own) && !self.quiet.has(own) {
            self.rest[own] += 1;
        }
    }

    /// Makes the part of the UID Quiet that a request silences, if it silences one.
    fn pass_request(&mut self, step: Step, request: &Request)
        requires { IsStepBelow (length self.old.rest.items) step }
        ensures { (bs : List ℕ) (es : List EntryValue) (i : ℕ)
            → IsEntryAt bs es i (Sent request.now) step
            → IsTallyAt bs es i self.old → IsTallyAt bs es (i + 1) self.new }
    {
        match *request {
            Request::StayQuiet { uid, .. } => {
                // no tag has another number
                if let Some(_) = Uid::new(uid) {
                    self.silence(step.own());
                }
            }
            Request::Inventory { .. } => {}
        }
    }

    /// Takes the tally past an entry.
    pub(crate) fn pass(&mut self, step: Step, entry: &Entry)
        requires few { self.old.counts.raised + 1 < 2 ^ 32 }
        requires step { IsStepBelow (length self.old.rest.items) step }
        ensures { (bs : List ℕ) (es : List EntryValue) (i : ℕ)
            → IsEntryAt bs es i entry.now step → IsTallyAt bs es i self.old
            → IsTallyAt bs es (i + 1) self.new }
    {
        match *entry {
            Entry::Sent(request) => self.pass_request(step, &request),
            Entry::FieldCycle => self.wake(),
            Entry::Silent => self.counts.raise(step.span()),
            Entry::Heard(_) => self.hear(step.span(), step.own()),
            // in these no UID is overlooked
            Entry::Garbled
            | Entry::Collision
            | Entry::Captured(_)
            | Entry::Unknown
            | Entry::Listed(_) => {}
        }
    }

    /// The margin of each part, after the last entry.
    pub(crate) fn margins(self) -> Vec<u32>
        ensures { (bs : List ℕ) (es : List EntryValue) → IsTallyAt bs es (length es) self
            → AreMargins bs es result.items }
    {
        let mut tally = self;
        for part in 0..tally.rest.len() {
            if !tally.quiet.has(part) {
                tally.turn(part);
            }
        }
        tally.rest
    }
}
