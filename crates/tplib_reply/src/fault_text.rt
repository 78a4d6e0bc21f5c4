//! The text of a fault: its line, its column where it is one of syntax, and what is wrong.
ghost use Rattle.std.specs.Prelude.{◌≡◌, ◌++◌, ◌≤◌};
ghost use Rattle.trop_io.specs.Faults.{HasCause};
ghost use Rattle.trop_io.specs.Whole.{WritesAll};
ghost use Rattle.tplib_reply.specs.FaultTexts.{fault_text, fault_line, fault_column, fault_words};

use crate::writing::write_number;
use trop_io::{Sink, WriteFault, write_all};
use trop_text::Fault;

/// Writes the text of the fault. It takes no memory.
pub fn write_fault<E: Sink>(fault: Fault, err: &mut E) -> Result<(), WriteFault>
    ensures bytes { WritesAll (E.bytes err.old) (E.bytes err.new) (fault_text fault) result }
    ensures cause { HasCause (E.faults err.old) (E.faults err.new) result }
{
    write_number(b"line ", u64::from(line(fault)), err)?;
    write_column(fault, err)?;
    write_all(err, words(fault))
}

fn write_column<E: Sink>(fault: Fault, err: &mut E) -> Result<(), WriteFault>
    ensures bytes { WritesAll (E.bytes err.old) (E.bytes err.new) (fault_column fault) result }
    ensures cause { HasCause (E.faults err.old) (E.faults err.new) result }
{
    match fault {
        Fault::Syntax { column, .. } => write_number(b", column ", u64::from(column), err),
        _ => write_all(err, b""),
    }
}

fn line(fault: Fault) -> u32
    ensures { result ≡ fault_line fault }
{
    match fault {
        Fault::Syntax { line, .. } => line,
        Fault::NumberRange { line } => line,
        Fault::UnknownName { line } => line,
        Fault::DuplicateName { line } => line,
        Fault::TooManyVars { line } => line,
        Fault::TooManyLines { line } => line,
        Fault::WrongKind { line } => line,
        Fault::TooManyStatements { line } => line,
        Fault::TooManyAtoms { line } => line,
        Fault::TooDeep { line } => line,
        Fault::AssertMode { line } => line,
        Fault::ReportFault { line } => line,
    }
}

fn words(fault: Fault) -> &'static [u8]
    ensures { result.now ≡ fault_words fault }
{
    match fault {
        Fault::Syntax { .. } => b": syntax",
        Fault::NumberRange { .. } => b": number out of range",
        Fault::UnknownName { .. } => b": unknown name",
        Fault::DuplicateName { .. } => b": duplicate name",
        Fault::TooManyVars { .. } => b": too many variables",
        Fault::TooManyLines { .. } => b": too many lines",
        Fault::WrongKind { .. } => b": wrong kind",
        Fault::TooManyStatements { .. } => b": too many statements",
        Fault::TooManyAtoms { .. } => b": too many atoms",
        Fault::TooDeep { .. } => b": nested too deep",
        Fault::AssertMode { .. } => b": assert not in this mode",
        Fault::ReportFault { .. } => b": report fault",
    }
}
