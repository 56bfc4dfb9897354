//! What the lines of a log do to the UIDs, part by part.

use std::alloc::{AllocError, Global};
use vic_frame::{Request, Uid};
use vic_log::{Entry, PackedLine};
use vic_walk::{LogParts, Span, Step};

/// What a line does.
#[derive(Clone, Copy)]
pub(crate) enum Effect {
    /// A Stay Quiet silences a part that was Ready.
    Quiet { part: usize },
    /// A field cycle makes all parts Ready again.
    Wake,
    /// A slot, by the number of its line, rules out the parts of its mask that are Ready, except
    /// for the one that was heard. If none was, `heard` is the end of the mask's parts.
    Ruling { line: u32, mask: Span, heard: usize },
    /// A slot, by the number of its line, in whose mask a part was heard, alone or among others: it
    /// rules out none.
    Captured { line: u32, mask: Span, heard: usize },
    /// An unread slot: the position of its line, and the parts of its mask.
    Unread { position: usize, mask: Span },
}

/// What the lines of a log do. What is Quiet isn't silenced again.
pub(crate) fn effects_of(
    alloc: Global,
    lines: &[PackedLine],
    log_parts: &LogParts,
) -> Result<Vec<Effect>, AllocError> {
    let mut silenced = vec![in alloc; 0; log_parts.parts.count()]?;
    let mut stretch: u32 = 1;
    let mut effects = Vec::new(alloc);
    for (position, (line, step)) in lines.iter().zip(&log_parts.steps).enumerate() {
        match effect_of(position, line.number(), &line.item(), *step) {
            None => {}
            Some(Effect::Quiet { part }) if !note_silenced(&mut silenced, part, stretch) => {}
            Some(effect) => {
                effects.push(effect)?;
                if let Effect::Wake = effect {
                    stretch = stretch.saturating_add(1);
                }
            }
        }
    }
    Ok(effects)
}

/// What an entry does, by the position and the number of its line, and the parts that it concerns.
fn effect_of(position: usize, line: u32, entry: &Entry, step: Step) -> Option<Effect> {
    let mask = step.span();
    let named = step.own();
    match *entry {
        Entry::Silent => Some(Effect::Ruling {
            line,
            mask,
            heard: mask.to,
        }),
        Entry::Heard(_) => Some(Effect::Ruling {
            line,
            mask,
            heard: named,
        }),
        Entry::Captured(_) => Some(Effect::Captured {
            line,
            mask,
            heard: named,
        }),
        Entry::Collision | Entry::Garbled => Some(Effect::Unread { position, mask }),
        Entry::FieldCycle => Some(Effect::Wake),
        Entry::Sent(Request::StayQuiet { uid, .. }) => {
            Uid::new(uid).map(|_| Effect::Quiet { part: named })
        }
        Entry::Sent(Request::Inventory { .. }) | Entry::Unknown | Entry::Listed(_) => None,
    }
}

/// Notes that a part is silenced, by the number of the stretch between two field cycles, from 1. It
/// returns whether the part was Ready.
fn note_silenced(silenced: &mut [u32], part: usize, stretch: u32) -> bool {
    match silenced.get_mut(part) {
        Some(last) if *last < stretch => {
            *last = stretch;
            true
        }
        _ => false,
    }
}
