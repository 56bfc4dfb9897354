//! Why files are refused.

ghost use Rattle.std.specs.Prelude.{◌≡◌, ◌≤◌, length};
ghost use Rattle.vic_operands.specs.Faults.{operand_fault_name};

use vic_log::LineFault;
use vic_table::TableLineFault;

/// What is wrong with a line of a file.
#[derive(Clone, Copy, Debug, PartialEq, Eq)]
pub enum OperandFault {
    /// The line of a table has this fault.
    Table(TableLineFault),
    /// No text of surveys could have the line there.
    Survey,
    /// The log is known by what a log before it is known by.
    SameName,
    /// The line of a list of what is expected has this fault, as that of a log.
    List(LineFault),
    /// The line of a list says something else than that a UID is expected.
    NotListed,
}

/// Why files are refused: the name of one of them, or of a log in it, and the first line with a
/// fault, numbered from 1.
#[derive(Drop)]
pub struct Refusal {
    pub name: String,
    pub line: u64,
    pub fault: OperandFault,
}

impl OperandFault {
    /// Its name, of at most 16 bytes.
    pub fn name(&self) -> &'static str
        ensures name { result.now ≡ operand_fault_name self.now }
        ensures short { length result.now ≤ 16 }
    {
        match self {
            OperandFault::Table(fault) => fault.name(),
            OperandFault::Survey => "Survey",
            OperandFault::SameName => "SameName",
            OperandFault::List(fault) => fault.name(),
            OperandFault::NotListed => "NotListed",
        }
    }
}
