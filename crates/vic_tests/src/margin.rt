//! Margins of logs and of UIDs, and what the cautious readings of complete lists leave open.

use crate::logs::text_of;
use crate::values::{A, B, mask, uid};
use std::alloc::Global;
use std::process::Abort;
use std::test::Fail;
use vic_frame::Mask;
use vic_log::read_log;
use vic_margin::{Margin, margin, overlooked};
use vic_verdict::judge;

/// Logs, each with its margin and the length and the value of its weakest mask.
const MARGINS: [(&str, u32, u8, u64); 7] = [
    ("I1 S", 1, 0, 0),
    ("I1 RA UA", 1, 1, 0),
    ("I1 RA QA I1 S UA", 2, 1, 0),
    ("I1 RA QA QB I1 S UA", 1, 56, 0x04_0100_0000_00B2),
    ("I1 S MA S", 1, 1, 0),
    ("I1 RA", 0, 56, 0x04_0100_0000_00A1),
    ("I1 C UA", 0, 1, 0),
];

/// Asks a log for its margin.
fn has_margin(rt: &impl Abort, alloc: Global, row: &(&str, u32, u8, u64)) -> Result<(), Fail> {
    let log = read_log(alloc, text_of(alloc, row.0)?.as_bytes())?;
    let judged = judge(alloc, &log)?;
    let Margin {
        verdict,
        weakest,
        ..
    } = margin(alloc, log)?;
    let weakest = weakest.ok_or("impossible")?;
    assert!(rt; verdict == judged, "{}", row.0);
    assert!(rt; weakest.margin == row.1, "{}", row.0);
    assert!(rt; weakest.mask == mask(row.2, row.3)?, "{}", row.0);
    Ok(())
}

#[test]
fn margins_of_logs(rt: HostRuntime) -> Result<(), Fail> {
    for row in &MARGINS {
        has_margin(&rt, rt.alloc(), row)?;
    }
    Ok(())
}

/// The length and the value of a mask, if there is one.
type MaskRow = Option<(u8, u64)>;

/// Logs with complete lists, each with what its hidden and its deaf reading leave unsettled.
const READINGS: [(&str, MaskRow, MaskRow); 4] = [
    ("I1 S", None, Some((0, 0))),
    ("I1 RA UA", Some((1, 0)), Some((1, 0))),
    ("I1 RA QA I1 S UA", None, Some((1, 0))),
    (
        "I1 RA QA QB I1 S UA",
        Some((56, 0x04_0100_0000_00B2)),
        Some((1, 0)),
    ),
];

/// Whether a mask is that of a row, or both are missing.
fn is_mask_of(found: &Option<Mask>, row: &MaskRow) -> bool {
    match (found, row) {
        (Some(found), Some((len, value))) => found.len() == *len && found.value() == *value,
        (None, None) => true,
        (Some(_), None) | (None, Some(_)) => false,
    }
}

/// Asks a log for its readings.
fn has_readings(
    rt: &impl Abort,
    alloc: Global,
    row: &(&str, MaskRow, MaskRow),
) -> Result<(), Fail> {
    let log = read_log(alloc, text_of(alloc, row.0)?.as_bytes())?;
    let readings = margin(alloc, log)?.readings.ok_or("not complete")?;
    assert!(rt; is_mask_of(&readings.hidden, &row.1), "{}", row.0);
    assert!(rt; is_mask_of(&readings.deaf, &row.2), "{}", row.0);
    Ok(())
}

#[test]
fn readings_of_logs(rt: HostRuntime) -> Result<(), Fail> {
    for row in &READINGS {
        has_readings(&rt, rt.alloc(), row)?;
    }
    Ok(())
}

#[test]
fn margins_of_uids(rt: HostRuntime) -> Result<(), Fail> {
    let text = text_of(rt.alloc(), "I1 RA QA I1 S I1 S")?;
    let log = read_log(rt.alloc(), text.as_bytes())?;
    let margins = overlooked(rt.alloc(), &log, &[uid(A)?, uid(B)?])?;
    assert!(&rt; margins.as_slice() == [0, 3].as_slice());
    Ok(())
}
