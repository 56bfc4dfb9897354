//! What the program writes, for C.

ghost use Rattle.std.specs.Prelude.{◌≡◌, ◌≢◌, IfOk, MatchOption};
ghost use Rattle.vicinity_c.specs.Run as spec;

use crate::given::{names_in, texts_in};
use std::alloc::{AllocError, Global};
use vic_commands::{Command, Output, output_of};
use vic_numbers::{NO_ANSWER, copy_list};

/// The line that the program writes to standard error where words are no command with its operands.
const USAGE_LINE: &str = "vicinity: usage\n";

/// The command that has a number.
fn command_of(number: u32) -> Option<Command>
    ensures { result ≡ spec.command_of number }
{
    match number {
        1 => Some(Command::Check),
        2 => Some(Command::Explain),
        3 => Some(Command::Report),
        4 => Some(Command::Margin),
        5 => Some(Command::Simulate),
        6 => Some(Command::Reconcile),
        7 => Some(Command::Frame),
        8 => Some(Command::Spell),
        9 => Some(Command::Survey),
        10 => Some(Command::Collection),
        11 => Some(Command::Json),
        12 => Some(Command::JsonCollection),
        _ => None,
    }
}

/// What the program writes for what C hands over; `None` if that asks for nothing.
fn output(
    alloc: Global,
    number: u32,
    names: &[u8],
    texts: &[u8],
    lengths: &[usize],
) -> Result<Option<Output>, AllocError>
    ensures { IfOk result (λ output. MatchOption output
        (spec.AsksNothing number names.now texts.now lengths.now)
        (spec.IsOutputFor number names.now texts.now lengths.now)) }
{
    let Some(command) = command_of(number) else {
        return Ok(None);
    };
    let Some(names) = names_in(alloc, names)? else {
        return Ok(None);
    };
    let Some(texts) = texts_in(alloc, texts, lengths)? else {
        return Ok(None);
    };
    if names.len() == texts.len() {
        Ok(Some(output_of(alloc, command, &names, &texts)?))
    } else {
        Ok(None)
    }
}

/// Does what the program does for a command of it, over texts in memory: they stand one behind the
/// other, with their lengths, and their names are lines, one for each. What the program writes to
/// its standard output is returned: `needed` is how many bytes it has. If they fit into the buffer,
/// they are at its start; otherwise it is unchanged, and the same call with a buffer of `needed`
/// bytes returns them. The result is the program's status.
///
/// It is 4 where there is no answer. If the texts aren't what the command takes, the line
/// `vicinity: usage` is returned. If memory was refused, no command has the number, or the names or
/// the lengths don't fit, `needed` is 0.
#[unsafe(no_mangle)]
pub extern "C" fn vicinity_run(
    alloc: Global,
    command: u32,
    names: &[u8],
    texts: &[u8],
    lengths: &[usize],
    written: &mut [u8],
    needed: &mut usize,
) -> u32
    ensures answer { result ≢ 4 → spec.IsRunInto command names.now texts.now lengths.now
        result needed.new written.old written.new }
    ensures usage { result ≡ 4 → needed.new ≢ 0
        → spec.IsUsageInto command names.now texts.now lengths.now
        needed.new written.old written.new }
    ensures nothing { result ≡ 4 → needed.new ≡ 0 → written.new ≡ written.old }
{
    *needed = 0;
    match output(alloc, command, names, texts, lengths) {
        Ok(Some(Output::Answer(answer))) => {
            *needed = copy_list(answer.text.as_slice(), written);
            u32::from(answer.status.code())
        }
        Ok(Some(Output::Usage)) => {
            *needed = copy_list(USAGE_LINE.as_bytes(), written);
            NO_ANSWER.status
        }
        Ok(None) | Err(_) => NO_ANSWER.status,
    }
}
