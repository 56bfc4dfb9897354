//! How many items are in each state.

ghost use Rattle.std.specs.Prelude.{◌≡◌, ◌++◌, OnOk};
ghost use Rattle.std.specs.List.{flat_map};
ghost use Rattle.vic_result.specs.ResultObject.{count_json, count_named, counts_json};
ghost use Rattle.vic_result.specs.StateNames.{state_name};

use crate::states::state_name;
use std::alloc::AllocError;
use vic_collection::State;
use vic_text::push_decimal;

/// The states, in their order.
const STATES: [State; 9] = [
    State::NoTag,
    State::Returned,
    State::InPlace,
    State::Misplaced,
    State::There,
    State::Doubtful,
    State::Away,
    State::NotCounted,
    State::Absent,
];

/// How many of some states have a name.
fn count_of(states: &[State], name: &[u8]) -> usize
    ensures { result ≡ count_named states.now name.now }
{
    states
        .iter()
        .filter(|state| state_name(**state) == name)
        .count()
}

/// Appends how many of some states have a name.
fn push_count(text: &mut Vec<u8>, states: &[State], name: &[u8]) -> Result<(), AllocError>
    ensures { OnOk result (text.new.items ≡ text.old.items ++ count_json states.now name.now) }
{
    text.extend_from_slice(b"\"")?;
    text.extend_from_slice(name)?;
    text.extend_from_slice(b"\":")?;
    push_decimal(text, count_of(states, name) as u64)?;
    text.extend_from_slice(b",")
}

/// Appends how many of some states are of each of some kinds.
fn push_each_count(text: &mut Vec<u8>, states: &[State], kinds: &[State]) -> Result<(), AllocError>
    ensures { OnOk result (text.new.items ≡ text.old.items
        ++ flat_map (λ kind. count_json states.now (state_name kind)) kinds.now) }
{
    for kind in kinds {
        push_count(text, states, state_name(*kind))?;
    }
    Ok(())
}

/// Appends how many items are in each state, and how many UIDs are unlisted.
pub(crate) fn push_counts(
    text: &mut Vec<u8>,
    states: &[State],
    unlisted: usize,
) -> Result<(), AllocError>
    ensures { OnOk result (text.new.items ≡ text.old.items ++ counts_json states.now unlisted) }
{
    text.extend_from_slice(b"{")?;
    push_each_count(text, states, &STATES)?;
    text.extend_from_slice(b"\"unexpected\":")?;
    push_decimal(text, unlisted as u64)?;
    text.extend_from_slice(b"}")
}
