//! The cells of a result.

ghost use Rattle.std.specs.Prelude.{◌≡◌, ◌==◌, ℕ, ◌++◌, ◌∷◌, [], OnOk, IfOk, if◌then◌else◌, replicate};
ghost use Rattle.vic_table.specs.Cells.{quote};
ghost use Rattle.vic_result.specs.ResultCells.{cell_text, doubled, has_special, needs_quotes};

use std::alloc::AllocError;
use vic_table::trimmed;

const QUOTE: u8 = b'"';

/// Appends a separator and a cell.
pub(crate) fn push_cell(text: &mut Vec<u8>, separator: u8, cell: &[u8]) -> Result<(), AllocError>
    ensures { OnOk result
        (text.new.items ≡ text.old.items ++ separator ∷ cell_text separator cell.now) }
{
    text.push(separator)?;
    if needs_quotes(separator, cell) {
        push_quoted(text, cell)
    } else {
        text.extend_from_slice(cell)
    }
}

/// Whether a cell is written between quotes.
fn needs_quotes(separator: u8, cell: &[u8]) -> bool
    ensures { result ≡ needs_quotes separator cell.now }
{
    has_special(separator, cell) || trimmed(cell) != cell
}

/// Whether a separator or a quote is in a cell.
fn has_special(separator: u8, cell: &[u8]) -> bool
    ensures { result ≡ has_special separator cell.now }
{
    cell.iter().any(|byte| *byte == separator || *byte == QUOTE)
}

/// Appends a cell between quotes.
fn push_quoted(text: &mut Vec<u8>, cell: &[u8]) -> Result<(), AllocError>
    ensures { OnOk result
        (text.new.items ≡ text.old.items ++ (quote ∷ doubled cell.now ++ quote ∷ [])) }
{
    text.push(QUOTE)?;
    for byte in cell {
        if *byte == QUOTE {
            text.push(QUOTE)?;
        }
        text.push(*byte)?;
    }
    text.push(QUOTE)?;
    Ok(())
}

/// Appends a byte so many times.
pub(crate) fn push_times(text: &mut Vec<u8>, count: usize, byte: u8) -> Result<(), AllocError>
    ensures { OnOk result (text.new.items ≡ text.old.items ++ replicate count byte) }
{
    for _ in 0..count {
        text.push(byte)?;
    }
    Ok(())
}
