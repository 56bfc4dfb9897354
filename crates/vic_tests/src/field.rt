//! A field to which one tag after another is added.

use crate::values::{Z, mask, uid};
use std::process::Abort;
use std::test::Fail;
use vic_field::{Field, Outcome};

/// Adds a tag. The keys come in all orders: between, before and after those that are there, near
/// and far.
fn adds(rt: &impl Abort, field: &mut Field, i: u16) -> Result<(), Fail> {
    let uid = uid(Z + u64::from(i) * 0x1_0F0F_1235 % 0x1_0000_0000)?;
    assert!(rt; field.add(uid) == Ok(()), "{i}");
    Ok(())
}

#[test]
fn many_tags_of_a_field(rt: HostRuntime) -> Result<(), Fail> {
    let mut field = Field::new(rt.alloc());
    for i in 0..300_u16 {
        adds(&rt, &mut field, i)?;
    }
    assert!(&rt; field.answer(&mask(0, 0)?) == Outcome::Several);
    Ok(())
}
