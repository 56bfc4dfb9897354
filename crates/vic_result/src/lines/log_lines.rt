//! The lines about logs: places without one, logs of no place, and what logs leave open.

ghost use Rattle.std.specs.Prelude.{◌≡◌, ◌≤◌, ◌++◌, OnOk, length, map};
ghost use Rattle.std.specs.List.{flat_map};
ghost use Rattle.vic_result.specs.NamesAt.{names_at};
ghost use Rattle.vic_result.specs.ResultLines.{all_open_lines, ended, left_over_lines, more_line, open_line, open_lines, without_log_lines};
ghost use Rattle.vic_result.specs.inner.Lines.{AddsUnsettled};

use crate::answered::{push_words, push_words_mask};
use crate::names::name_at;
use std::alloc::{AllocError, Global};
use vic_collection::Collection;
use vic_frame::Mask;
use vic_survey::Survey;
use vic_tree::OpenMasks;

/// Appends words and a text, in a line.
fn push_words_line(text: &mut Vec<u8>, words: &[u8], more: &[u8]) -> Result<(), AllocError>
    ensures { OnOk result
        (text.new.items ≡ text.old.items ++ ended (words.now ++ more.now)) }
{
    push_words(text, words, more)?;
    text.extend_from_slice(b"\n")
}

/// Appends the places without a log.
pub(crate) fn push_without_log(text: &mut Vec<u8>, places: &[&[u8]]) -> Result<(), AllocError>
    ensures { OnOk result (text.new.items ≡ text.old.items
        ++ flat_map without_log_lines (map (λ place. place.now) places.now)) }
{
    for place in places {
        push_words_line(text, b"no log of ", place)?;
    }
    Ok(())
}

/// Appends the logs of no place.
pub(crate) fn push_left_over(
    text: &mut Vec<u8>,
    surveys: &[Survey],
    logs: &[usize],
) -> Result<(), AllocError>
    ensures { OnOk result (text.new.items ≡ text.old.items
        ++ flat_map left_over_lines (names_at surveys.now logs.now)) }
{
    for log in logs {
        push_words_line(text, b"left over ", name_at(surveys, *log))?;
    }
    Ok(())
}

/// Appends an open mask of a log.
fn push_open_line(text: &mut Vec<u8>, name: &[u8], mask: &Mask) -> Result<(), AllocError>
    ensures { OnOk result (text.new.items ≡ text.old.items ++ open_line name.now mask.now) }
{
    push_words_mask(text, b"open ", mask)?;
    push_words_line(text, b" in ", name)
}

/// Appends open masks of a log.
fn push_mask_lines(text: &mut Vec<u8>, name: &[u8], masks: &[Mask]) -> Result<(), AllocError>
    ensures { OnOk result
        (text.new.items ≡ text.old.items ++ flat_map (open_line name.now) masks.now) }
{
    for mask in masks {
        push_open_line(text, name, mask)?;
    }
    Ok(())
}

/// Appends that a log has more open masks, if it has.
fn push_more_line(text: &mut Vec<u8>, name: &[u8], more: bool) -> Result<(), AllocError>
    ensures { OnOk result (text.new.items ≡ text.old.items ++ more_line name.now more) }
{
    if more {
        push_words_line(text, b"more open in ", name)
    } else {
        Ok(())
    }
}

/// Appends the first open masks of a log, and that there are more.
fn push_open_lines(text: &mut Vec<u8>, name: &[u8], masks: &OpenMasks) -> Result<(), AllocError>
    ensures { OnOk result (text.new.items ≡ text.old.items ++ open_lines name.now masks.now) }
{
    push_mask_lines(text, name, masks.masks.as_slice())?;
    push_more_line(text, name, masks.more)
}

/// Appends the first open masks of some logs.
fn push_all_open_lines(
    text: &mut Vec<u8>,
    surveys: &[Survey],
    masks: &[OpenMasks],
) -> Result<(), AllocError>
    requires { length surveys.now ≤ length masks.now }
    ensures { OnOk result
        (text.new.items ≡ text.old.items ++ all_open_lines surveys.now masks.now) }
{
    for index in 0..surveys.len() {
        push_open_lines(
            text,
            surveys[index].name().as_str().as_bytes(),
            &masks[index],
        )?;
    }
    Ok(())
}

/// Appends what is unsettled, if anything is.
pub(crate) fn push_unsettled(
    alloc: Global,
    text: &mut Vec<u8>,
    collection: &Collection,
    unsettled: &Option<Mask>,
) -> Result<(), AllocError>
    ensures { OnOk result
        (AddsUnsettled collection.now unsettled.now text.old.items text.new.items) }
{
    let Some(mask) = unsettled else {
        return Ok(());
    };
    let masks = collection.open_masks(alloc)?;
    push_words_mask(text, b"unsettled ", mask)?;
    text.extend_from_slice(b"\n")?;
    push_all_open_lines(text, collection.surveys(), &masks)
}
