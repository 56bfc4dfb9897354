//! Parts that are Ready, and parts that are Quiet, from one entry to the next.

ghost use Rattle.std.specs.Prelude.{◌≡◌, ◌+◌, ℕ, ◌<◌, ◌==◌, ◌&&◌, ◌||◌, not, true, false, Bool, OnOk, List, Some, length, slice_get};
ghost use Rattle.vic_frame.specs.Uids.{has};
ghost use Rattle.vic_log.specs.declared.entry.Entry.{Entry as EntryValue};
ghost use Rattle.vic_walk.specs.Marked.{is_marked};
ghost use Rattle.vic_walk.specs.Steps.{IsStepBelow, IsEntryAt};

use crate::marks::Marks;
use crate::steps::Step;
use std::alloc::{AllocError, Global};
use vic_frame::{Request, Uid};
use vic_log::Entry;

/// The parts of some set of UIDs, by the state of these.
#[derive(Drop)]
pub struct PartStates {
    /// Those that are Ready.
    pub ready: Marks,
    /// Those that are Quiet.
    pub quiet: Vec<usize>,
    ghost listed: { (p : ℕ) → has quiet.items p ≡ true → p < length ready },
}

impl PartStates {
    ghost use Rattle.vic_walk.specs.Walk.{AreStatesAt};

    /// Parts that are all Ready.
    pub(crate) fn all_ready(alloc: Global, parts: Marks) -> PartStates
        ensures ready { result.ready ≡ parts }
        ensures quiet { (p : ℕ) → has result.quiet.items p ≡ false }
    {
        PartStates {
            ready: parts,
            quiet: Vec::new(alloc),
        }
    }

    /// Adds a part of UIDs that are Ready, or Quiet.
    pub(crate) fn add(&mut self, part: usize, ready: bool) -> Result<(), AllocError>
        requires { part < length self.old.ready }
        ensures ready { OnOk result ((p : ℕ) → is_marked self.new.ready p
            ≡ (is_marked self.old.ready p || (p == part && ready))) }
        ensures room { length self.new.ready ≡ length self.old.ready }
        ensures quiet { OnOk result ((p : ℕ) → has self.new.quiet.items p
            ≡ (has self.old.quiet.items p || (p == part && not ready))) }
    {
        if ready {
            self.ready.put(part);
        } else {
            self.quiet.push(part)?;
        }
        Ok(())
    }

    /// Makes a part Quiet, if it is Ready.
    #[inline(always)]
    fn silence(&mut self, part: usize) -> Result<(), AllocError>
        requires { part < length self.old.ready }
        ensures ready { OnOk result ((p : ℕ) → is_marked self.new.ready p
            ≡ (not (p == part) && is_marked self.old.ready p)) }
        ensures room { length self.new.ready ≡ length self.old.ready }
        ensures quiet { OnOk result ((p : ℕ) → has self.new.quiet.items p
            ≡ (has self.old.quiet.items p || (p == part && is_marked self.old.ready p))) }
    {
        if self.ready.has(part) {
            self.ready.take(part);
            self.quiet.push(part)?;
        }
        Ok(())
    }

    /// Makes all parts Ready that are Quiet.
    pub(crate) fn wake(&mut self)
        ensures ready { (p : ℕ) → is_marked self.new.ready p
            ≡ (is_marked self.old.ready p || has self.old.quiet.items p) }
        ensures room { length self.new.ready ≡ length self.old.ready }
        ensures quiet { (p : ℕ) → has self.new.quiet.items p ≡ false }
    {
        for quiet in &self.quiet {
            self.ready.put(*quiet);
        }
        self.quiet.clear();
    }

    /// Goes past an entry: makes the part of a UID Quiet that a Stay Quiet request silences, if it
    /// is Ready, and all parts Ready at a field cycle. So the parts of any set of UIDs stay its
    /// parts.
    #[inline(always)]
    pub(crate) fn pass(&mut self, step: Step, entry: &Entry) -> Result<(), AllocError>
        requires { IsStepBelow (length self.old.ready) step }
        ensures room { length self.new.ready ≡ length self.old.ready }
        ensures states { OnOk result ((bs : List ℕ) (es : List EntryValue) (set : ℕ → Bool) (i : ℕ)
            → IsEntryAt bs es i entry.now step
            → AreStatesAt bs es set i self.old → AreStatesAt bs es set (i + 1) self.new) }
    {
        match *entry {
            Entry::Sent(request) => match request {
                Request::StayQuiet { uid, .. } => match Uid::new(uid) {
                    Some(_) => {
                        self.silence(step.own())?;
                        Ok(())
                    }
                    // no tag has this number
                    None => Ok(()),
                },
                Request::Inventory { .. } => Ok(()),
            },
            Entry::FieldCycle => {
                self.wake();
                Ok(())
            }
            Entry::Silent
            | Entry::Collision
            | Entry::Heard(_)
            | Entry::Garbled
            | Entry::Captured(_)
            | Entry::Unknown
            | Entry::Listed(_) => Ok(()),
        }
    }
}
