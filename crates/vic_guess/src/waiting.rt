//! The parts of the UIDs that wait for a line to rule them out.

ghost use Rattle.std.specs.Prelude.{◌≡◌, length};

use crate::effects::Effect;
use std::alloc::{AllocError, Global};
use vic_walk::{Marks, Span};

/// The parts, of so many, that wait for a line to rule them out; a line rules out only those that
/// are Ready.
#[derive(Drop)]
pub(crate) struct Waiting {
    count: usize,
    /// The parts that wait.
    waits: Marks,
    /// Those of them that are Ready.
    ready: Marks,
    ghost room_waits: { length waits ≡ count },
    ghost room_ready: { length ready ≡ count },
}

impl Waiting {
    /// No parts of so many.
    fn none(alloc: Global, count: usize) -> Result<Waiting, AllocError> {
        Ok(Waiting {
            count,
            waits: Marks::none(alloc, count)?,
            ready: Marks::none(alloc, count)?,
        })
    }

    /// Those that could answer in an unread slot, as they are before the first line: the parts of
    /// the slot's mask, without those that are Quiet after the effects before the slot.
    pub(crate) fn new(
        alloc: Global,
        count: usize,
        mask: Span,
        before: &[Effect],
    ) -> Result<Waiting, AllocError> {
        let mut waiting = Waiting::none(alloc, count)?;
        for part in mask.from..mask.to {
            waiting.add(part);
        }
        waiting.silence_as_after(before);
        waiting.retain_ready();
        Ok(waiting)
    }

    /// The same parts that wait, all Ready.
    fn all_ready(&self, alloc: Global) -> Result<Waiting, AllocError> {
        let mut waiting = Waiting::none(alloc, self.count)?;
        for part in 0..self.count {
            if self.has(part) {
                waiting.add(part);
            }
        }
        Ok(waiting)
    }

    /// Adds a part, which is Ready.
    fn add(&mut self, part: usize) {
        if part < self.count {
            self.waits.put(part);
            self.ready.put(part);
        }
    }

    /// Takes out the parts that aren't Ready.
    fn retain_ready(&mut self) {
        for part in 0..self.count {
            if part < self.count && !self.ready.has(part) {
                self.waits.take(part);
            }
        }
    }

    /// Whether a part waits.
    pub(crate) fn has(&self, part: usize) -> bool {
        self.waits.has(part)
    }

    /// Makes a part Ready, if it waits.
    fn wake(&mut self, part: usize) {
        if part < self.count && self.has(part) {
            self.ready.put(part);
        }
    }

    /// Makes those of some parts Ready that wait, as a field cycle does.
    pub(crate) fn wake_all(&mut self, parts: &[usize]) {
        for part in parts {
            self.wake(*part);
        }
    }

    /// Makes a part Quiet.
    pub(crate) fn silence(&mut self, part: usize) {
        if part < self.count {
            self.ready.take(part);
        }
    }

    /// Makes those parts Quiet that are Quiet after some effects: silenced since the last field
    /// cycle among them.
    fn silence_as_after(&mut self, effects: &[Effect]) {
        for effect in effects.iter().rev() {
            match *effect {
                Effect::Quiet { part } => self.silence(part),
                Effect::Wake => return,
                Effect::Ruling { .. } | Effect::Captured { .. } | Effect::Unread { .. } => {}
            }
        }
    }

    /// Takes out the parts that a slot rules out: those of its mask that wait and are Ready, except
    /// for the one that was heard. Returns them.
    pub(crate) fn rule_out(
        &mut self,
        alloc: Global,
        mask: Span,
        heard: usize,
    ) -> Result<Vec<usize>, AllocError> {
        let mut ruled_out = Vec::new(alloc);
        let mut from = mask.from;
        while let Some(part) = self.ready.first(from, mask.to) {
            if part != heard && part < self.count {
                self.waits.take(part);
                self.ready.take(part);
                ruled_out.push(part)?;
            }
            from = part + 1;
        }
        Ok(ruled_out)
    }

    /// For each part the number of the last line that rules it out; 0 if none does, or it doesn't
    /// wait. The effects are gone through from the last one back: so a Stay Quiet makes its part
    /// Ready, and a field cycle makes those Quiet that it had made Ready.
    pub(crate) fn last_lines(
        &self,
        alloc: Global,
        effects: &[Effect],
    ) -> Result<Vec<u32>, AllocError> {
        let mut last = vec![in alloc; 0; self.count]?;
        let mut waiting = self.all_ready(alloc)?;
        waiting.silence_as_after(effects);
        for index in (0..effects.len()).rev() {
            match effects[index] {
                Effect::Quiet { part } => waiting.wake(part),
                Effect::Wake => waiting.silence_as_after(&effects[..index]),
                Effect::Captured { .. } | Effect::Unread { .. } => {}
                Effect::Ruling { line, mask, heard } => {
                    for part in &waiting.rule_out(alloc, mask, heard)? {
                        note(&mut last, *part, line);
                    }
                }
            }
        }
        Ok(last)
    }
}

/// Notes a number at a place.
fn note(numbers: &mut [u32], place: usize, number: u32) {
    if let Some(noted) = numbers.get_mut(place) {
        *noted = number;
    }
}
