//! The UIDs that a log lists.

ghost use Rattle.std.specs.Prelude.{◌<◌, ◌^◌, ◌≡◌, ◌≤◌, ℕ, IfOk, [], ◌∷◌, length, true};
ghost use Rattle.vic_frame.specs.Uids.{has, IsUid};
ghost use Rattle.vic_log.specs.Order.{entries, listed};
ghost use Rattle.vic_verdict.specs.Rising.{SameMembers};

use std::alloc::{AllocError, Global};
use vic_log::{Entry, Log, PackedLine};
use vic_tree::RisingUids;

/// The UIDs that a log lists.
pub fn listed_uids(alloc: Global, lines: &[PackedLine]) -> Result<RisingUids, AllocError>
    ensures members { IfOk result (λ v. SameMembers v (listed (entries lines.now))) }
    ensures uids { IfOk result (λ v. (u : ℕ) → has v u ≡ true → IsUid u) }
{
    let mut uids = Vec::new(alloc);
    for line in lines {
        if let Entry::Listed(uid) = line.item() {
            uids.push(uid)?;
        }
    }
    Ok(RisingUids::of(uids))
}

/// How many UIDs a log lists. Each has a line of its own, so the count fits 32 bits as the line
/// numbers do.
pub fn count_listed(log: &Log) -> u32
    ensures { result ≡ length (listed (entries log.now.lines)) }
{
    let lines = log.lines();
    let mut count = 0;
    for &line in lines {
        count += count_one(line);
    }
    count
}

/// How many UIDs a line lists, one or none. Clause `number` restates, for proofs, that its number
/// fits 32 bits.
fn count_one(line: PackedLine) -> u32
    ensures value { result ≡ length (listed (line.item ∷ [])) }
    ensures small { result ≤ 1 }
    ensures number { line.number < 2 ^ 32 }
{
    if let Entry::Listed(_) = line.item() {
        1
    } else {
        0
    }
}
