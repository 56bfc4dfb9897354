//! Laws about frames: what a contract of this crate says about one call, stated for all frames.

ghost use Rattle.std.specs.Prelude.{◌≡◌, ℕ, ◌<◌, ◌≤◌, ◌^◌, ◌↔◌, true, None, Ok, Bool, List, length};
ghost use Rattle.vic_frame.specs.declared.request.Request.{Request};
ghost use Rattle.vic_frame.specs.declared.request.Request.TheVariants.{Inventory, StayQuiet};
ghost use Rattle.vic_frame.specs.Masks.{BitMask, IsMask};
ghost use Rattle.vic_frame.specs.Replies.{Reply, IsReply, SpellsReply};
ghost use Rattle.vic_frame.specs.Bytes.{AreBytes};
ghost use Rattle.vic_frame.specs.Crc.{crc_right, register};
ghost use Rattle.vic_frame.specs.Requests.{IsInRange, IsValid, SpellsRequest};
ghost use Rattle.vic_frame.specs.Fields.{HasInventoryFields, HasStayQuietFields, HasReplyFields};
ghost use Rattle.vic_frame.specs.Faults.{first_fault, request_faults, reply_faults};
ghost use Rattle.vic_frame.specs.Reading.{request_reading, reply_reading};

/// Bytes spell a value if and only if the value is in range and each field is where it belongs.
///
/// `ISO/IEC 15693-3, Inventory request`, `.. Stay Quiet` and `.. Inventory response`.
pub fn spelled_by_fields()
    ensures inventory { (f : List ℕ) (link : ℕ) (sixteen : Bool) (m : BitMask) → AreBytes f
        → SpellsRequest f (Inventory link sixteen m)
        ↔ (IsMask m × IsValid (Inventory link sixteen m)
        × HasInventoryFields f link sixteen m) }
    ensures stay_quiet { (f : List ℕ) (link uid : ℕ) → AreBytes f
        → SpellsRequest f (StayQuiet link uid)
        ↔ ((uid < 2 ^ 64) × (link ≤ 3) × HasStayQuietFields f link uid) }
    ensures reply { (f : List ℕ) (r : Reply) → AreBytes f
        → SpellsReply f r ↔ (IsReply r × HasReplyFields f r) }
{}

/// A valid request has exactly one spelling, and so has a reply; bytes spell at most one request
/// and at most one reply. Some bytes spell one of each, so the caller says which it is reading.
pub fn one_spelling()
    ensures some { (q : Request) → IsInRange q → IsValid q
        → (f : List ℕ) × SpellsRequest f q }
    ensures one { (f g : List ℕ) (q : Request)
        → SpellsRequest f q → SpellsRequest g q → f ≡ g }
    ensures only { (f : List ℕ) (q r : Request)
        → SpellsRequest f q → SpellsRequest f r → q ≡ r }
    ensures some_reply { (r : Reply) → IsReply r → (f : List ℕ) × SpellsReply f r }
    ensures one_reply { (f g : List ℕ) (r : Reply)
        → SpellsReply f r → SpellsReply g r → f ≡ g }
    ensures reply { (f : List ℕ) (r s : Reply)
        → SpellsReply f r → SpellsReply f s → r ≡ s }
{}

/// Bytes are read as a value if and only if they spell it.
pub fn read_where_spelled()
    ensures request { (f : List ℕ) (q : Request) → AreBytes f
        → (request_reading f ≡ Ok q) ↔ SpellsRequest f q }
    ensures reply { (f : List ℕ) (r : Reply) → AreBytes f
        → (reply_reading f ≡ Ok r) ↔ SpellsReply f r }
{}

/// No fault applies if and only if the bytes spell something.
pub fn no_fault_where_spelled()
    ensures request { (f : List ℕ) → AreBytes f
        → (first_fault (request_faults f) ≡ None) ↔ ((q : Request) × SpellsRequest f q) }
    ensures reply { (f : List ℕ) → AreBytes f
        → (first_fault (reply_faults f) ≡ None) ↔ ((r : Reply) × SpellsReply f r) }
{}

/// The CRC is right if and only if the register, run over all the bytes, ends at F0B8.
///
/// `ISO/IEC 13239, 16-bit FCS`.
pub fn crc_right_by_register()
    ensures { (f : List ℕ) → AreBytes f → 2 ≤ length f
        → (crc_right f ≡ true) ↔ (register f ≡ 0xF0B8) }
{}
