//! What states are called, and the state at a position.

ghost use Rattle.std.specs.Prelude.{◌≡◌, ◌<◌, Some, length, slice_get};
ghost use Rattle.vic_result.specs.StateNames.{state_name};

use vic_collection::State;

/// What a state is called.
pub fn state_name(state: State) -> &'static [u8]
    ensures { result.now ≡ state_name state }
{
    match state {
        State::NoTag => b"no tag",
        State::Returned => b"returned",
        State::InPlace => b"in place",
        State::Misplaced => b"misplaced",
        State::There => b"there",
        State::Doubtful => b"not provable",
        State::Away => b"away",
        State::NotCounted => b"not counted",
        State::Absent => b"missing",
    }
}

/// The state of the item at a position, among those of all items.
pub(crate) fn state_at(states: &[State], index: usize) -> State
    requires { index < length states.now }
    ensures { slice_get states.now index ≡ Some result }
{
    states[index]
}
