//! The entries of a log.

ghost use Rattle.std.specs.Prelude.{◌≡◌, ◌==◌, ℕ, false, true, IfSome, IfNone, Some};
ghost use Rattle.vic_log.specs.Deaf.{is_answer};
ghost use Rattle.vic_log.specs.Rounds.{is_slot};
ghost use Rattle.vic_log.specs.Slots.{hears, tells};

use vic_frame::{Request, Response, Uid};

/// The number of the last line that a log may have (profile).
pub const MAX_LINES: u32 = 1_000_000;

/// The greatest length of a line without its end, in bytes (profile).
pub const MAX_LINE_LEN: usize = 128;

/// What one line of a log says (profile).
#[derive(Clone, Copy, Debug, PartialEq, Eq)]
pub enum Entry {
    /// `T`: a request was sent.
    Sent(Request),
    /// `S`: no tag answered in the next slot.
    Silent,
    /// `C`: two or more tags answered in the next slot.
    Collision,
    /// `R`: one tag answered in the next slot, and its reply was read.
    Heard(Response),
    /// `U`: the reader claims this UID.
    Listed(Uid),
    /// `D`, from version 2 on: one or more tags answered in the next slot, and none was read.
    Garbled,
    /// `F`, from version 2 on: the field was switched off and on.
    FieldCycle,
    /// `H`, only in version 3: this reply was read in the next slot; whether other tags answered
    /// under it isn't known.
    Captured(Response),
    /// `N`, only in version 3: the next slot passed, and nothing is known of it.
    Unknown,
}

impl Entry {
    /// The UID of the reply that was read in its slot, if one was.
    pub fn heard(&self) -> Option<Uid>
        ensures some { IfSome result (λ uid. (u : ℕ) → hears (Some self.now) u ≡ (uid == u)) }
        ensures none { IfNone result ((u : ℕ) → hears (Some self.now) u ≡ false) }
    {
        match *self {
            Entry::Heard(response) | Entry::Captured(response) => Some(response.uid()),
            Entry::Sent(_)
            | Entry::Silent
            | Entry::Collision
            | Entry::Listed(_)
            | Entry::Garbled
            | Entry::FieldCycle
            | Entry::Unknown => None,
        }
    }

    /// Whether it is a slot line that tells something of its slot.
    pub fn tells(&self) -> bool
        ensures { result ≡ tells self.now }
    {
        match *self {
            Entry::Silent
            | Entry::Collision
            | Entry::Heard(_)
            | Entry::Garbled
            | Entry::Captured(_) => true,
            Entry::Unknown | Entry::Sent(_) | Entry::Listed(_) | Entry::FieldCycle => false,
        }
    }

    /// Whether it is an answer: a slot in which a tag answered.
    pub fn is_answer(&self) -> bool
        ensures { result ≡ is_answer self.now }
    {
        match *self {
            Entry::Heard(_) | Entry::Captured(_) | Entry::Collision | Entry::Garbled => true,
            Entry::Unknown | Entry::Sent(_) => false,
            Entry::Silent | Entry::Listed(_) | Entry::FieldCycle => false,
        }
    }

    /// Whether it is a slot line.
    pub fn is_slot(&self) -> bool
        ensures { result ≡ is_slot self.now }
    {
        match *self {
            Entry::Silent
            | Entry::Collision
            | Entry::Heard(_)
            | Entry::Garbled
            | Entry::Captured(_)
            | Entry::Unknown => true,
            Entry::Sent(_) | Entry::Listed(_) | Entry::FieldCycle => false,
        }
    }
}

/// Which lines a log may have.
#[derive(Clone, Copy, Debug, PartialEq, Eq)]
pub enum Version {
    /// Neither `D`, `F`, `H` nor `N`.
    V1,
    /// Neither `H` nor `N`.
    V2,
    /// All entries.
    V3,
}

/// An entry with the number of its line. In a log the numbers rise, from 2 to 1,000,000.
#[derive(Clone, Copy, Debug, PartialEq, Eq)]
pub struct LogLine {
    pub number: u32,
    pub item: Entry,
}
