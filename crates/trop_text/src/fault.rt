//! What may be wrong with a text, and where.
ghost use Rattle.std.specs.Prelude.{◌≡◌};
ghost use Rattle.trop_text.specs.declared.fault.TextErr.TheVariants.{NoMemory, Fault as FaultOf};

use std::alloc::{AllocError, AllocFailed};
use thiserror::Error;

/// What may be wrong with a text, without its place.
#[derive(Clone, Copy, Debug, PartialEq, Eq)]
pub enum FaultKind {
    /// A token, or an end, that the grammar does not admit there.
    Syntax,
    /// A number past the greatest size that its place admits.
    NumberRange,
    /// A name that is not among the variables.
    UnknownName,
    /// A variable that is declared twice.
    DuplicateName,
    /// More variables than a text may declare.
    TooManyVars,
    /// More lines than a part of a file may have.
    TooManyLines,
    /// A file of another kind than the wanted one.
    WrongKind,
    /// More statements than a program may have.
    TooManyStatements,
    /// More comparisons and `?` than a program may have.
    TooManyAtoms,
    /// Signs that open a block, a condition or a negation, nested too deep.
    TooDeep,
    /// An assert whose side is not of the mode that the program is read for.
    AssertMode,
    /// A report that does not fit the program it carries.
    ReportFault,
}

impl FaultKind {
    ghost use Rattle.trop_text.specs.Faults as spec;

    /// The fault of this kind at a line and a column, of which all but a syntax fault keep the line alone.
    pub fn at(self, line: u32, column: u32) -> Fault
        ensures { result ≡ spec.fault self line column }
    {
        match self {
            FaultKind::Syntax => Fault::Syntax { line, column },
            FaultKind::NumberRange => Fault::NumberRange { line },
            FaultKind::UnknownName => Fault::UnknownName { line },
            FaultKind::DuplicateName => Fault::DuplicateName { line },
            FaultKind::TooManyVars => Fault::TooManyVars { line },
            FaultKind::TooManyLines => Fault::TooManyLines { line },
            FaultKind::WrongKind => Fault::WrongKind { line },
            FaultKind::TooManyStatements => Fault::TooManyStatements { line },
            FaultKind::TooManyAtoms => Fault::TooManyAtoms { line },
            FaultKind::TooDeep => Fault::TooDeep { line },
            FaultKind::AssertMode => Fault::AssertMode { line },
            FaultKind::ReportFault => Fault::ReportFault { line },
        }
    }
}

/// The first fault of a text, with its place; [`FaultKind`] says what each kind means. Lines and columns count from 1,
/// columns in bytes.
#[derive(Clone, Copy, Debug, PartialEq, Eq, Error)]
pub enum Fault {
    #[error("line {line}, column {column}: syntax")]
    Syntax { line: u32, column: u32 },
    #[error("line {line}: number out of range")]
    NumberRange { line: u32 },
    #[error("line {line}: unknown name")]
    UnknownName { line: u32 },
    #[error("line {line}: duplicate name")]
    DuplicateName { line: u32 },
    #[error("line {line}: too many variables")]
    TooManyVars { line: u32 },
    #[error("line {line}: too many lines")]
    TooManyLines { line: u32 },
    #[error("line {line}: wrong kind")]
    WrongKind { line: u32 },
    #[error("line {line}: too many statements")]
    TooManyStatements { line: u32 },
    #[error("line {line}: too many atoms")]
    TooManyAtoms { line: u32 },
    #[error("line {line}: nested too deep")]
    TooDeep { line: u32 },
    #[error("line {line}: assert not in this mode")]
    AssertMode { line: u32 },
    #[error("line {line}: report fault")]
    ReportFault { line: u32 },
}

/// Why a text was not read.
#[derive(Clone, Copy, Debug, PartialEq, Eq, Error)]
pub enum TextErr {
    /// The text is not of its format; this is the first fault in the order of the text.
    #[error(transparent)]
    Fault(Fault),
    /// An allocation was refused.
    #[error("out of memory")]
    NoMemory,
}

impl From<Fault> for TextErr {
    ghost from_gives = { λ fault e. e ≡ FaultOf fault };

    fn from(fault: Fault) -> Self {
        TextErr::Fault(fault)
    }
}

impl From<AllocError> for TextErr {
    ghost from_gives = { λ _ e. e ≡ NoMemory };

    fn from(_: AllocError) -> Self {
        TextErr::NoMemory
    }
}

impl<T: Drop> From<AllocFailed<T>> for TextErr {
    ghost from_gives = { λ _ e. e ≡ NoMemory };

    fn from(_: AllocFailed<T>) -> Self {
        TextErr::NoMemory
    }
}
