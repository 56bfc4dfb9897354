//! The lines of a log, packed, because a log may have a million of them.

ghost use Rattle.std.specs.Prelude.{◌≡◌};

use crate::entry::Entry;
use std::marker::Model;
use vic_frame::{Mask, Request, Response, Uid};

/// What a line says, with its number in the middle, so that it takes 16 bytes.
#[derive(Clone, Copy, Debug, PartialEq, Eq)]
enum Packed {
    Inventory {
        link: u8,
        sixteen: bool,
        len: u8,
        number: u32,
        value: u64,
    },
    StayQuiet {
        link: u8,
        number: u32,
        uid: u64,
    },
    Silent {
        number: u32,
    },
    Collision {
        number: u32,
    },
    Heard {
        flags: u8,
        dsfid: u8,
        number: u32,
        uid: Uid,
    },
    Listed {
        number: u32,
        uid: Uid,
    },
    Garbled {
        number: u32,
    },
    FieldCycle {
        number: u32,
    },
    Captured {
        flags: u8,
        dsfid: u8,
        number: u32,
        uid: Uid,
    },
    Unknown {
        number: u32,
    },
}

/// A line of a log, in 16 bytes: an entry with the number of its line.
#[derive(Clone, Copy, Debug, PartialEq, Eq)]
pub struct PackedLine {
    packed: Packed,
}

impl Model for PackedLine {
    ghost use Rattle.vic_log.specs.declared.entry.LogLine.{LogLine as LogLineValue};
    ghost use Rattle.vic_log.specs.Packed.{line_of, packed_of, IsPacked};

    ghost Value = { LogLineValue };

    ghost view = { λ l. line_of l.packed };

    ghost invariant = { λ l. IsPacked l.packed };

    ghost inverse = { λ l. record { packed = packed_of l.number l.item } };
}

impl PackedLine {
    /// An entry on the line with this number.
    #[inline(always)]
    pub fn new(number: u32, item: Entry) -> PackedLine
        ensures { result ≡ record { number = number; item = item } }
    {
        let packed = match item {
            Entry::Sent(request) => match request {
                Request::Inventory {
                    link,
                    sixteen,
                    mask,
                } => Packed::Inventory {
                    link,
                    sixteen,
                    len: mask.len(),
                    number,
                    value: mask.value(),
                },
                Request::StayQuiet { link, uid } => Packed::StayQuiet { link, number, uid },
            },
            Entry::Silent => Packed::Silent { number },
            Entry::Collision => Packed::Collision { number },
            Entry::Heard(response) => Packed::Heard {
                flags: response.flags(),
                dsfid: response.dsfid(),
                number,
                uid: response.uid(),
            },
            Entry::Listed(uid) => Packed::Listed { number, uid },
            Entry::Garbled => Packed::Garbled { number },
            Entry::FieldCycle => Packed::FieldCycle { number },
            Entry::Captured(response) => Packed::Captured {
                flags: response.flags(),
                dsfid: response.dsfid(),
                number,
                uid: response.uid(),
            },
            Entry::Unknown => Packed::Unknown { number },
        };
        PackedLine { packed }
    }

    /// The number of the line.
    #[inline(always)]
    pub fn number(&self) -> u32
        ensures { result ≡ self.now.number }
    {
        match self.packed {
            Packed::Inventory { number, .. }
            | Packed::StayQuiet { number, .. }
            | Packed::Silent { number }
            | Packed::Collision { number }
            | Packed::Heard { number, .. }
            | Packed::Listed { number, .. }
            | Packed::Garbled { number }
            | Packed::FieldCycle { number }
            | Packed::Captured { number, .. }
            | Packed::Unknown { number } => number,
        }
    }

    /// Its entry.
    #[inline(always)]
    pub fn item(&self) -> Entry
        ensures { result ≡ self.now.item }
    {
        match self.packed {
            Packed::Inventory {
                link,
                sixteen,
                len,
                value,
                ..
            } => Entry::Sent(Request::Inventory {
                link,
                sixteen,
                mask: Mask::of_bits(len, value),
            }),
            Packed::StayQuiet { link, uid, .. } => Entry::Sent(Request::StayQuiet { link, uid }),
            Packed::Silent { .. } => Entry::Silent,
            Packed::Collision { .. } => Entry::Collision,
            Packed::Heard {
                flags,
                dsfid,
                uid,
                ..
            } => Entry::Heard(Response::of_fields(flags, dsfid, uid)),
            Packed::Listed { uid, .. } => Entry::Listed(uid),
            Packed::Garbled { .. } => Entry::Garbled,
            Packed::FieldCycle { .. } => Entry::FieldCycle,
            Packed::Captured {
                flags,
                dsfid,
                uid,
                ..
            } => Entry::Captured(Response::of_fields(flags, dsfid, uid)),
            Packed::Unknown { .. } => Entry::Unknown,
        }
    }
}
