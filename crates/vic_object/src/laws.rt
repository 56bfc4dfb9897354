//! Laws of the definitions. The functions do nothing: each stands for what its clause says.

ghost use Rattle.std.specs.Prelude.{List};
ghost use Rattle.std.specs.List.{Contains};
ghost use Rattle.vic_log.specs.Order.{entries};
ghost use Rattle.vic_log.specs.declared.entry.LogLine.{LogLine as LogLineValue};
ghost use Rattle.vic_verdict.specs.Possible.{IsPossible};
ghost use Rattle.vic_object.specs.Asking.{AsksNoneAgain, AsksNoneInVain, AsksOnlyOpen};
ghost use Rattle.vic_object.specs.Told.{IsFieldTold};
ghost use Rattle.vic_object.specs.declared.told.AskedMask.{AskedMask as AskedMaskValue};
ghost use Rattle.vic_object.specs.declared.told.FieldTold.{FieldTold as FieldToldValue};

/// What is told to ask for an open mask asks only UIDs that are open: in each of its slots only
/// tags answer that may be there or not.
pub fn requests_ask_only_open_uids()
    ensures { (lines : List LogLineValue) (f : FieldToldValue) (a : AskedMaskValue)
        → IsPossible (entries lines) → IsFieldTold lines f → Contains f.asked.items a
        → AsksOnlyOpen (entries lines) a.requests.items }
{}

/// What is told to ask for an open mask has no slot in which tags collided before, so it doesn't
/// end as it did then.
pub fn requests_ask_nothing_again()
    ensures { (lines : List LogLineValue) (f : FieldToldValue) (a : AskedMaskValue)
        → IsFieldTold lines f → Contains f.asked.items a
        → AsksNoneAgain (entries lines) a.requests.items }
{}

/// What is told to ask for an open mask in one slot has no collision of the log within its mask, so
/// it isn't sure to collide once more.
pub fn requests_of_one_slot_ask_nothing_in_vain()
    ensures { (lines : List LogLineValue) (f : FieldToldValue) (a : AskedMaskValue)
        → IsFieldTold lines f → Contains f.asked.items a
        → AsksNoneInVain (entries lines) a.requests.items }
{}
