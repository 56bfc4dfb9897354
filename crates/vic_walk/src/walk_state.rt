//! What each kind of entry does to the parts of a log.

ghost use Rattle.std.specs.Prelude.{◌≡◌, ◌↔◌, ◌+◌, ℕ, ◌<◌, ◌≤◌, ◌==◌, ◌||◌, true, IfOk, OnOk, List, length};
ghost use Rattle.vic_log.specs.declared.entry.Entry.{Entry as EntryValue};
ghost use Rattle.vic_walk.specs.Borders.{part_count};
ghost use Rattle.vic_walk.specs.Marked.{is_marked};
ghost use Rattle.vic_walk.specs.Steps.{is_within, IsStepBelow, IsEntryAt};

use crate::marks::Marks;
use crate::part_states::PartStates;
use crate::steps::{Span, Step};
use std::alloc::{AllocError, Global};
use vic_log::Entry;

/// What a walk over the first entries of a log knows of its parts.
#[derive(Drop)]
pub(crate) struct WalkState {
    /// The parts that are open: those that are Ready, and those that are Quiet.
    pub(crate) open: PartStates,
    /// For each part its end: 0 while it is open; else one more than the position of the entry that
    /// rules it out.
    pub(crate) ends: Vec<u32>,
    /// The parts that were heard; such a part has only one UID.
    pub(crate) heard: Marks,
    ghost ends_room: { length ends.items ≡ length open.ready },
    ghost heard_room: { length heard ≡ length open.ready },
}

impl WalkState {
    ghost use Rattle.vic_walk.specs.Walk.{AreBorneOut};
    ghost use Rattle.vic_walk.specs.inner.Ruled.{is_other, LosesHeard, IsRuledOut};
    ghost use Rattle.vic_walk.specs.inner.WalkState.{IsWalkAt};

    /// The walk before the first entry: that many parts, all open and Ready.
    pub(crate) fn start(alloc: Global, count: usize) -> Result<WalkState, AllocError>
        ensures { IfOk result (λ w. (bs : List ℕ) (es : List EntryValue) → part_count bs ≡ count
            → IsWalkAt bs es 0 w) }
    {
        Ok(WalkState {
            open: PartStates::all_ready(alloc, Marks::all(alloc, count)?),
            ends: vec![in alloc; 0; count]?,
            heard: Marks::none(alloc, count)?,
        })
    }

    /// Rules out the parts of a span that are open and Ready, with this end. Returns whether one of
    /// them was heard.
    #[inline(always)]
    fn rule_out(&mut self, span: Span, end: u32) -> bool
        requires { span.to ≤ length self.old.open.ready }
        ensures ruled_out { IsRuledOut self.old self.new (is_within span) end }
        ensures heard { self.new.heard ≡ self.old.heard }
        ensures lost { (result ≡ true) ↔ LosesHeard self.old (is_within span) }
    {
        let mut lost = false;
        let mut from = span.from;
        while let Some(part) = self.open.ready.first(from, span.to) {
            self.open.ready.take(part);
            self.ends[part] = end;
            lost |= self.heard.has(part);
            from = part + 1;
        }
        lost
    }

    /// Hears the UID of part `own` alone in a slot whose mask has the UIDs of a span: rules out the
    /// other parts of the span that are open and Ready, with this end. Returns whether the replies
    /// are still borne out: `own` is in the span, open and Ready, and none of the parts now ruled
    /// out was heard.
    #[inline(always)]
    fn hear(&mut self, span: Span, own: usize, end: u32) -> bool
        requires within { span.to ≤ length self.old.open.ready }
        requires own { own < length self.old.open.ready }
        ensures ruled_out { IsRuledOut self.old self.new (is_other span own) end }
        ensures heard { (p : ℕ) → is_marked self.new.heard p
            ≡ (p == own || is_marked self.old.heard p) }
        ensures fine { (result ≡ true) ↔ ((is_within span own ≡ true)
            × (is_marked self.old.open.ready own ≡ true)
            × (LosesHeard self.old (is_other span own) → ⊥)) }
    {
        let is_ready = self.open.ready.has(own);
        // so that `rule_out` passes it over
        self.open.ready.take(own);
        let lost = self.rule_out(span, end);
        if is_ready {
            self.open.ready.put(own);
        }
        self.heard.put(own);
        is_ready && span.has(own) && !lost
    }

    /// Hears the UID of part `own`, alone or among others, in a slot whose mask has the UIDs of a
    /// span: rules out none. Returns whether the reply is borne out: `own` is in the span, open and
    /// Ready.
    fn hear_among(&mut self, span: Span, own: usize) -> bool
        requires { own < length self.old.open.ready }
        ensures open { self.new.open ≡ self.old.open }
        ensures ends { self.new.ends.items ≡ self.old.ends.items }
        ensures heard { (p : ℕ) → is_marked self.new.heard p
            ≡ (p == own || is_marked self.old.heard p) }
        ensures fine { (result ≡ true) ↔ ((is_within span own ≡ true)
            × (is_marked self.old.open.ready own ≡ true)) }
    {
        self.heard.put(own);
        self.open.ready.has(own) && span.has(own)
    }

    /// Takes the walk past an entry; a part that it rules out gets this end. Returns whether the
    /// replies are still borne out.
    pub(crate) fn pass(&mut self, step: Step, end: u32, entry: &Entry) -> Result<bool, AllocError>
        requires { IsStepBelow (length self.old.open.ready) step }
        ensures walk { OnOk result ((bs : List ℕ) (es : List EntryValue) (i : ℕ) → end ≡ i + 1
            → IsEntryAt bs es i entry.now step
            → IsWalkAt bs es i self.old → IsWalkAt bs es (i + 1) self.new) }
        ensures fine { IfOk result (λ fine. (bs : List ℕ) (es : List EntryValue) (i : ℕ)
            → IsEntryAt bs es i entry.now step
            → IsWalkAt bs es i self.old → AreBorneOut es i
            → (fine ≡ true) ↔ AreBorneOut es (i + 1)) }
    {
        match *entry {
            Entry::Silent => Ok(!self.rule_out(step.span(), end)),
            Entry::Heard(_) => Ok(self.hear(step.span(), step.own(), end)),
            Entry::Captured(_) => Ok(self.hear_among(step.span(), step.own())),
            // these rule out no UID, and hear none
            Entry::Sent(_)
            | Entry::FieldCycle
            | Entry::Collision
            | Entry::Garbled
            | Entry::Unknown
            | Entry::Listed(_) => {
                self.open.pass(step, entry)?;
                Ok(true)
            }
        }
    }
}
