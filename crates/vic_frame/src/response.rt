//! What one tag answers.

ghost use Rattle.std.specs.Prelude.{◌≡◌, ◌%◌, SomeIff};
ghost use Rattle.vic_frame.specs.Replies.{Reply, IsReply};

use crate::uid::Uid;
use std::marker::Model;

/// A tag's reply to an Inventory request: its flags, of which the lowest, Error_flag, is 0, its
/// DSFID and its UID. The other flags and the DSFID are kept but not judged.
///
/// `ISO/IEC 15693-3, Inventory response`.
#[derive(Clone, Copy, Debug, PartialEq, Eq)]
pub struct Response {
    flags: u8,
    dsfid: u8,
    uid: Uid,
}

impl Model for Response {
    ghost Value = { Reply };

    ghost view = { λ r. record { flags = r.flags; dsfid = r.dsfid; uid = r.uid } };

    ghost invariant = { λ r. IsReply (record { flags = r.flags; dsfid = r.dsfid; uid = r.uid }) };

    ghost inverse = { λ r. record { flags = r.flags; dsfid = r.dsfid; uid = r.uid } };
}

impl Response {
    /// The reply with these fields; `None` if Error_flag, the lowest bit of `flags`, is 1.
    pub fn new(flags: u8, dsfid: u8, uid: Uid) -> Option<Response>
        ensures { SomeIff result (flags % 2 ≡ 0)
            (record { flags = flags; dsfid = dsfid; uid = uid }) }
    {
        if flags % 2 == 0 {
            Some(Response { flags, dsfid, uid })
        } else {
            None
        }
    }

    /// The reply with these fields; Error_flag is known to be 0.
    pub fn of_fields(flags: u8, dsfid: u8, uid: Uid) -> Response
        requires { flags % 2 ≡ 0 }
        ensures { result ≡ record { flags = flags; dsfid = dsfid; uid = uid } }
    {
        Response { flags, dsfid, uid }
    }

    /// The flags of the reply; the lowest, Error_flag, is 0.
    pub fn flags(&self) -> u8
        ensures value { result ≡ self.now.flags }
        ensures is_reply { IsReply self.now }
    {
        self.flags
    }

    /// The data storage format identifier.
    pub fn dsfid(&self) -> u8
        ensures value { result ≡ self.now.dsfid }
        ensures is_reply { IsReply self.now }
    {
        self.dsfid
    }

    /// The tag's UID.
    pub fn uid(&self) -> Uid
        ensures value { result ≡ self.now.uid }
        ensures is_reply { IsReply self.now }
    {
        self.uid
    }
}
