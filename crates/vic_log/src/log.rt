//! A log as a value.

ghost use Rattle.std.specs.Prelude.{◌≡◌, ◌<◌, ◌≤◌, [], ◌∷◌, ◌++◌, not, ◌||◌, true, false};
ghost use Rattle.std.specs.Prelude.{Some, None, MatchResult, OnOk, OnErr, if◌then◌else◌};
ghost use Rattle.vic_log.specs.Deaf.{answers, deaf_entries, ends_silent, has_heard_alone, hidden_entries};
ghost use Rattle.vic_log.specs.declared.entry.Version.TheVariants.{V1, V2, V3};
ghost use Rattle.vic_log.specs.declared.fault.PushFault.TheVariants.{DuplicateListed};
ghost use Rattle.vic_log.specs.FirstVersion.{IsOfFirstVersion};
ghost use Rattle.vic_log.specs.SecondVersion.{IsOfSecondVersion};
ghost use Rattle.vic_frame.specs.Uids.{has};
ghost use Rattle.vic_log.specs.inner.UidSets.{IsIndex};
ghost use Rattle.vic_log.specs.Kept.{left_after, Keeps};
ghost use Rattle.vic_log.specs.Log.{LogValue, IsLog, with_line, last_from, RefusesOr, IsValidEntry};
ghost use Rattle.vic_log.specs.Order.{entries, listed, numbers, is_empty, refusal};

use crate::deaf;
use crate::entry::{Entry, MAX_LINES, Version};
use crate::fault::PushFault;
use crate::packed::PackedLine;
use crate::uid_set::{UidSet, is_listed};
use std::alloc::Global;
use std::marker::Model;
use vic_frame::Uid;

/// A log: entries in order, each with the number of its line.
#[derive(Drop)]
pub struct Log {
    version: Version,
    lines: Vec<PackedLine>,
    /// The greatest UID listed, or the least UID of all if none is, while each is above those
    /// before.
    greatest: Uid,
    /// The UIDs listed, once one of them wasn't above those before; until then it has no rows.
    uids: UidSet,
    /// Whether a UID is listed.
    listing: bool,
    /// How many slots of the round are left.
    slots_left: u8,
}

impl Model for Log {
    ghost Value = { LogValue };

    ghost view = { λ l. record { lines = l.lines.items; version = l.version } };

    ghost invariant = { λ l. Keeps l.version l.lines.items l.listing l.slots_left
        × IsIndex (listed (entries l.lines.items)) l.greatest l.uids };
}

impl Log {
    /// A log of version 1 without lines.
    pub fn new(alloc: Global) -> Log
        ensures { result ≡ record { lines = []; version = V1 } }
    {
        Log::with_version(alloc, Version::V1)
    }

    /// A log without lines.
    pub fn with_version(alloc: Global, version: Version) -> Log
        ensures { result ≡ record { lines = []; version = version } }
    {
        Log {
            version,
            lines: Vec::new(alloc),
            greatest: Uid::from_low_bits(0),
            uids: UidSet::without_rows(alloc),
            listing: false,
            slots_left: 0,
        }
    }

    /// Makes it a log without lines, of this version.
    pub(crate) fn begin(&mut self, version: Version)
        ensures { self.new ≡ record { lines = []; version = version } }
    {
        *self = Log::with_version(*self.lines.allocator(), version);
    }

    /// Its version.
    pub fn version(&self) -> Version
        ensures { result ≡ self.now.version }
    {
        self.version
    }

    /// Its lines.
    pub fn lines(&self) -> &[PackedLine]
        ensures value { result.now ≡ self.now.lines }
        ensures log { IsLog self.now.version result.now }
    {
        &self.lines
    }

    /// The number of its last line, 1 if it has none.
    pub fn last_line(&self) -> u32
        ensures value { result ≡ last_from 1 self.now.lines }
        ensures limit { result ≤ MAX_LINES }
    {
        match self.lines.last() {
            Some(line) => line.number(),
            None => 1,
        }
    }

    /// How many of its slot lines are answers: slots in which a tag answered.
    pub fn answers(&self) -> u32
        ensures value { result ≡ answers (entries self.now.lines) }
        ensures limit { result ≤ MAX_LINES }
    {
        deaf::answers(&self.lines) as u32
    }

    /// Whether some reply was heard alone; if none was, `into_hidden` keeps the entries.
    pub fn has_heard_alone(&self) -> bool
        ensures { result ≡ has_heard_alone (entries self.now.lines) }
    {
        deaf::has_heard_alone(&self.lines)
    }

    /// Whether a silent slot comes behind its last answer, or where it has none; if none does,
    /// `into_deaf` makes of it what `into_hidden` does.
    pub fn ends_silent(&self) -> bool
        ensures { result ≡ ends_silent (entries self.now.lines) }
    {
        deaf::ends_silent(&self.lines)
    }

    /// The log as if its replies may have hidden others, in version 3.
    pub fn into_hidden(self) -> Log
        ensures items { entries result.lines ≡ hidden_entries (entries self.lines) }
        ensures same { numbers result.lines ≡ numbers self.lines }
        ensures version { result.version ≡ V3 }
    {
        let mut log = self;
        deaf::hide(&mut log.lines);
        log.version = Version::V3;
        log
    }

    /// The log as if its replies may have hidden others, and the reader may have gone deaf after
    /// its last answer, in version 3.
    pub fn into_deaf(self) -> Log
        ensures items { entries result.lines ≡ deaf_entries (entries self.lines) }
        ensures same { numbers result.lines ≡ numbers self.lines }
        ensures version { result.version ≡ V3 }
    {
        let mut log = self;
        deaf::deafen(&mut log.lines);
        log.version = Version::V3;
        log
    }

    /// Why an entry can't follow these lines, if it can't.
    #[inline(always)]
    pub(crate) fn refusal(&self, item: &Entry) -> Option<PushFault>
        ensures { result ≡ refusal (entries self.now.lines) item.now }
    {
        match *item {
            Entry::Silent
            | Entry::Collision
            | Entry::Heard(_)
            | Entry::Garbled
            | Entry::Captured(_)
            | Entry::Unknown => { (self.slots_left == 0).then_some(PushFault::SlotOutsideRound) }
            Entry::Sent(_) | Entry::FieldCycle => {
                self.listing.then_some(PushFault::EntryAfterList)
            }
            Entry::Listed(uid) => refusal_listed(&self.lines, uid),
        }
    }

    /// Adds a line. If its entry can't follow those before, or memory is refused, the log stays as
    /// it was.
    #[inline(always)]
    pub fn push(&mut self, number: u32, item: Entry) -> Result<(), PushFault>
        requires above { last_from 1 self.old.lines < number }
        requires limit { number ≤ MAX_LINES }
        requires valid { IsValidEntry item }
        requires first_version { self.old.version ≡ V1 → IsOfFirstVersion item }
        requires second_version { self.old.version ≡ V2 → IsOfSecondVersion item }
        ensures answer { MatchResult result
            (λ _. refusal (entries self.old.lines) item ≡ None)
            (RefusesOr (refusal (entries self.old.lines) item)) }
        ensures added { OnOk result (self.new ≡ with_line self.old number item) }
        ensures unchanged { OnErr result (self.new ≡ self.old) }
    {
        if self.lines.reserve(1).is_err() {
            return Err(self.refusal(&item).unwrap_or(PushFault::Memory));
        }
        if let Entry::Listed(uid) = item {
            index_uid(&self.lines, &mut self.greatest, &mut self.uids, uid)?;
        } else if let Some(fault) = self.refusal(&item) {
            return Err(fault);
        }
        self.listing = listing_after(self.listing, &item);
        self.slots_left = slots_after(self.slots_left, &item);
        self.lines.push_reserved(PackedLine::new(number, item));
        Ok(())
    }
}

/// How many slots of the round are left after an entry.
#[inline(always)]
fn slots_after(left: u8, item: &Entry) -> u8
    ensures { result ≡ left_after left item.now }
{
    match *item {
        Entry::Sent(request) => request.slots(),
        Entry::Listed(_) | Entry::FieldCycle => 0,
        Entry::Silent
        | Entry::Collision
        | Entry::Heard(_)
        | Entry::Garbled
        | Entry::Captured(_)
        | Entry::Unknown => { left.saturating_sub(1) }
    }
}

/// Whether a UID is listed after an entry.
#[inline(always)]
fn listing_after(listing: bool, item: &Entry) -> bool
    ensures { result ≡ (listing || not (is_empty (listed (item.now ∷ [])))) }
{
    match *item {
        Entry::Listed(_) => true,
        Entry::Sent(_) | Entry::FieldCycle => listing,
        Entry::Silent
        | Entry::Collision
        | Entry::Heard(_)
        | Entry::Garbled
        | Entry::Captured(_)
        | Entry::Unknown => listing,
    }
}

/// Why a UID can't be listed after lines, if it can't. It looks at all of them.
fn refusal_listed(lines: &[PackedLine], uid: Uid) -> Option<PushFault>
    ensures { result ≡ (if has (listed (entries lines.now)) uid
        then Some DuplicateListed else None) }
{
    is_listed(lines, uid).then_some(PushFault::DuplicateListed)
}

/// Adds a UID to an index of those that lines list, unless they list it already.
#[inline(always)]
fn index_uid(
    lines: &[PackedLine],
    greatest: &mut Uid,
    uids: &mut UidSet,
    uid: Uid,
) -> Result<(), PushFault>
    requires { IsIndex (listed (entries lines.now)) greatest.old uids.old }
    ensures answer { MatchResult result
        (λ _. has (listed (entries lines.now)) uid ≡ false)
        (RefusesOr (if has (listed (entries lines.now)) uid
        then Some DuplicateListed else None)) }
    ensures more { OnOk result
        (IsIndex (listed (entries lines.now) ++ uid ∷ []) greatest.new uids.new) }
    ensures same { OnErr result
        (IsIndex (listed (entries lines.now)) greatest.new uids.new) }
{
    if uids.has_no_rows() && *greatest < uid {
        *greatest = uid;
        return Ok(());
    }
    let Ok(()) = uids.make_room(lines) else {
        return Err(refusal_listed(lines, uid).unwrap_or(PushFault::Memory));
    };
    if uids.put(uid)? {
        Ok(())
    } else {
        Err(PushFault::DuplicateListed)
    }
}
