//! Laws of tables: each is the contract of a function without a body.

ghost use Rattle.vic_table.specs.Conserved.{UidsAreConserved};
ghost use Rattle.vic_table.specs.Reordered.{OrderIsFree, OrderMakesNoFault, OrderOfPlacesIsFree};

/// The UIDs of a catalogue's items are exactly those that its cells have or spell, each in its
/// item's line, and no two items have the same.
pub fn uids_are_conserved()
    ensures { UidsAreConserved }
{}

/// Another order of the lines behind line 1 makes no fault where there is none: it leaves a
/// catalogue's items, or the rows of a table of places, as they are but for their numbers.
pub fn order_is_free()
    ensures no_fault { OrderMakesNoFault }
    ensures items { OrderIsFree }
    ensures places { OrderOfPlacesIsFree }
{}
