//! Tags: `Field::add`.

use crate::found::{Found, both};
use std::alloc::Global;
use vic_field::{AddFault, Field, Outcome};
use vic_frame::{Mask, Uid};

/// Adds a tag, and again if memory was refused and the tags answer as they did.
fn add_tag(field: &mut Field, all: &Mask, uid: Uid) -> Found {
    let heard = field.answer(all);
    match field.add(uid) {
        Ok(()) => Found::Right,
        Err(AddFault::Memory) => {
            if field.answer(all) == heard && field.add(uid).is_ok() {
                Found::Memory
            } else {
                Found::Wrong
            }
        }
        Err(AddFault::Already) => Found::Wrong,
    }
}

/// Adds three tags, and hears them.
pub fn add(alloc: Global) -> Found {
    let (Some(a), Some(b), Some(c), Some(all), Some(low)) = (
        Uid::new(0xE004_0100_0000_00A1),
        Uid::new(0xE004_0100_0000_00B2),
        Uid::new(0xE004_0100_0000_00B1),
        Mask::new(0, 0),
        Mask::new(8, 0xB1),
    ) else {
        return Found::Wrong;
    };
    let mut field = Field::new(alloc);
    let first = add_tag(&mut field, &all, a);
    let second = add_tag(&mut field, &all, b);
    let third = add_tag(&mut field, &all, c);
    if field.answer(&low) != Outcome::Lone(c) {
        return Found::Wrong;
    }
    both(both(first, second), third)
}
