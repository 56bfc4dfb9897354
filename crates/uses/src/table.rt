//! Uses of `vic_table`.

ghost use Rattle.std.specs.Prelude.{◌≡◌, IfOk, IfSome};
ghost use Rattle.vic_table.specs.Conserved.{IsConserved};
ghost use Rattle.vic_table.specs.Lines.{table_lines};

use vic_table::laws::uids_are_conserved;
use vic_table::{Catalogue, Table, TableFault, read_table};

/// The catalogue in a text, unless it is another table. It keeps the text byte for byte; the UIDs
/// of its items are those in the text, each in its item's row, and no two items have the same.
pub fn catalogue_in(text: Vec<u8>) -> Result<Option<Catalogue>, TableFault>
    ensures text { IfOk result (λ found. IfSome found (λ catalogue.
        catalogue.text ≡ text.items)) }
    ensures uids { IfOk result (λ found. IfSome found (λ catalogue.
        IsConserved (table_lines text.items) catalogue)) }
{
    uids_are_conserved();
    match read_table(text)? {
        Table::Catalogue(catalogue) => Ok(Some(catalogue)),
        Table::Places(_) => Ok(None),
    }
}
