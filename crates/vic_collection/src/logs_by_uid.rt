//! For each of many UIDs some logs.

ghost use Rattle.std.specs.Prelude.{◌≡◌, ◌≤◌, ◌<◌, ℕ, length, map, nat_eq, slice_range, IfOk};
ghost use Rattle.std.specs.List.{filter};
ghost use Rattle.std.specs.List.{AllWithin};
ghost use Rattle.std.specs.List.Sorted.{IsNonDecreasingBy, IsPartitionPoint};
ghost use Rattle.vic_collection.specs.Collections.{logs_in};
ghost use Rattle.vic_frame.specs.Uids.{IsUid};

use std::alloc::{AllocError, Global};
use std::marker::Model;
use vic_frame::Uid;

/// One log of a UID.
#[derive(Clone, Copy)]
pub struct LogOfUid {
    pub uid: Uid,
    /// The position of the log.
    pub log: usize,
}

/// For each of many UIDs some logs.
#[derive(Drop)]
pub struct LogsByUid {
    /// By rising UIDs; those of one UID in their order.
    rows: Vec<LogOfUid>,
    /// The log of each.
    logs: Vec<usize>,
}

impl Model for LogsByUid {
    ghost use Rattle.std.specs.Prelude.{◌≡◌, List, map};
    ghost use Rattle.std.specs.List.Sorted.{IsNonDecreasingBy};
    ghost use Rattle.vic_collection.specs.declared.logs_by_uid.LogOfUid.{LogOfUid};

    ghost Value = { List LogOfUid };

    ghost view = { λ a. a.rows.items };

    ghost invariant = { λ a. IsNonDecreasingBy (λ row. row.uid) a.rows.items
        × (a.logs.items ≡ map (λ row. row.log) a.rows.items) };
}

impl LogsByUid {
    /// The logs of UIDs, those of one UID in the order in which they come.
    pub fn of(alloc: Global, rows: Vec<LogOfUid>) -> Result<LogsByUid, AllocError>
        ensures { IfOk result (λ logs. (u : ℕ) → logs_in logs u ≡ logs_in rows.items u) }
    {
        let mut rows = rows;
        rows.sort_by_key(|row| row.uid)?;
        let logs = logs_of_rows(alloc, &rows)?;
        Ok(LogsByUid { rows, logs })
    }

    /// The logs of a UID, by their positions.
    pub fn logs_of(&self, uid: Uid) -> &[usize]
        ensures logs { result.now ≡ logs_in self.now uid }
        ensures range { IsUid uid }
    {
        let _number = uid.number();
        let (from, to) = bounds(&self.rows, uid);
        &self.logs[from..to]
    }
}

/// From which index on, and up to which, the rows of a UID stand.
fn bounds(rows: &[LogOfUid], uid: Uid) -> (usize, usize)
    requires { IsNonDecreasingBy (λ row. row.uid) rows.now }
    ensures order { result.0 ≤ result.1 }
    ensures bound { result.1 ≤ length rows.now }
    ensures found { slice_range rows.now result.0 result.1
        ≡ filter (λ row. nat_eq uid row.uid) rows.now }
{
    let from = rows.partition_point(|row| row.uid < uid);
    (from, end_of(rows, uid, from))
}

/// Up to which index the rows of a UID stand, from an index on before which all are lower.
/// Mostly there is one, or none, so they are counted and not searched.
fn end_of(rows: &[LogOfUid], uid: Uid, from: usize) -> usize
    requires rising { IsNonDecreasingBy (λ row. row.uid) rows.now }
    requires bound { from ≤ length rows.now }
    requires before { AllWithin (λ row. row.uid ≤ uid) rows.now 0 from }
    ensures bound { result ≤ length rows.now }
    ensures end { IsPartitionPoint (λ row. row.uid ≤ uid) (λ row. uid < row.uid) rows.now result }
{
    let number = uid.number();
    for index in from..rows.len() {
        let other = rows[index].uid.number();
        if other > number {
            return index;
        }
    }
    rows.len()
}

/// The log of each row.
fn logs_of_rows(alloc: Global, rows: &[LogOfUid]) -> Result<Vec<usize>, AllocError>
    ensures { IfOk result (λ logs. logs.items ≡ map (λ row. row.log) rows.now) }
{
    rows.iter().map(|row| row.log).collect(alloc)
}
