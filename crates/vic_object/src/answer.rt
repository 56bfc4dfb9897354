//! The members of an answer, and of a margin.

ghost use Rattle.std.specs.Prelude.{◌≡◌, ◌++◌, OnOk, codes, decimal};
ghost use Rattle.vic_log.specs.Names.{line_fault_name};
ghost use Rattle.vic_text.specs.Json.{json_uid};
ghost use Rattle.vic_object.specs.ObjectText as spec;

use std::alloc::AllocError;
use vic_frame::Uid;
use vic_log::LineFault;
use vic_margin::Weakest;
use vic_text::{ToJson, push_decimal, push_mask_members};
use vic_verdict::Verdict;

/// Appends the status of a verdict, its kind, and what it says.
pub(crate) fn push_verdict(text: &mut Vec<u8>, verdict: &Verdict) -> Result<(), AllocError>
    ensures { OnOk result (text.new.items ≡ text.old.items ++ spec.verdict_members verdict.now) }
{
    match *verdict {
        Verdict::Complete { count } => {
            push_words_number(
                text,
                b"\"status\":0,\"kind\":\"complete\",\"count\":",
                count,
            )
        }
        Verdict::Absent(uid) => push_words_uid(
            text,
            b"\"status\":1,\"kind\":\"absent\",\"uid\":",
            uid,
        ),
        Verdict::Unlisted(uid) => {
            push_words_uid(text, b"\"status\":1,\"kind\":\"unlisted\",\"uid\":", uid)
        }
        Verdict::Unsettled(mask) => {
            text.extend_from_slice(b"\"status\":1,\"kind\":\"unsettled\",")?;
            push_mask_members(text, &mask)
        }
        Verdict::Doubtful(uid) => {
            push_words_uid(text, b"\"status\":1,\"kind\":\"doubtful\",\"uid\":", uid)
        }
        Verdict::Impossible { line } => {
            push_words_number(
                text,
                b"\"status\":2,\"kind\":\"impossible\",\"line\":",
                line,
            )
        }
    }
}

/// Appends words and a number.
pub(crate) fn push_words_number(
    text: &mut Vec<u8>,
    words: &[u8],
    number: u32,
) -> Result<(), AllocError>
    ensures { OnOk result (text.new.items ≡ text.old.items ++ (words.now ++ decimal number)) }
{
    text.extend_from_slice(words)?;
    push_decimal(text, u64::from(number))
}

/// Appends words and a UID.
fn push_words_uid(text: &mut Vec<u8>, words: &[u8], uid: Uid) -> Result<(), AllocError>
    ensures { OnOk result (text.new.items ≡ text.old.items ++ (words.now ++ json_uid uid)) }
{
    text.extend_from_slice(words)?;
    uid.push_json(text)
}

/// Appends the same of a refused text.
pub(crate) fn push_refused(
    text: &mut Vec<u8>,
    line: u32,
    fault: &LineFault,
) -> Result<(), AllocError>
    ensures { OnOk result
        (text.new.items ≡ text.old.items ++ spec.refused_members line fault.now) }
{
    push_words_number(text, b"\"status\":3,\"kind\":\"refused\",\"line\":", line)?;
    text.extend_from_slice(b",\"fault\":\"")?;
    text.extend_from_slice(fault.name().as_bytes())?;
    text.extend_from_slice(b"\"")
}

/// Appends the margin of a complete list, and its weakest mask.
pub(crate) fn push_margin(text: &mut Vec<u8>, weakest: &Option<Weakest>) -> Result<(), AllocError>
    ensures { OnOk result (text.new.items ≡ text.old.items ++ spec.margin_members weakest.now) }
{
    match weakest {
        Some(weakest) => push_weakest(text, weakest),
        None => Ok(()),
    }
}

/// Appends a margin and a weakest mask.
fn push_weakest(text: &mut Vec<u8>, weakest: &Weakest) -> Result<(), AllocError>
    ensures { OnOk result (text.new.items ≡ text.old.items ++ spec.weakest_members weakest.now) }
{
    push_words_number(text, b",\"margin\":", weakest.margin)?;
    text.extend_from_slice(b",\"weakest\":")?;
    weakest.mask.push_json(text)
}
