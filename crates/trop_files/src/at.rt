//! Files of a vector with inequalities.
ghost use Rattle.std.specs.Prelude.{◌≡◌, ◌+◌, ◌≤◌, ◌^◌, IfOk, IfErr, length};
ghost use Rattle.trop_text.specs.Pieces.{pieces_left, pieces_of};
ghost use Rattle.trop_reading.specs.Gives.{Gives};
ghost use Rattle.trop_files.specs.AtFiles as spec;
ghost use Rattle.trop_files.specs.Files.{file_rest_at};
ghost use Rattle.trop_files.specs.Views.{header_of, at_of, at_text_of, IsWideAt};
ghost use Rattle.trop_reading.specs.Outcome.{AnswersWith, IsRefusal};

use crate::file_kind::FileKind;
use crate::header::{Header, read_header};
use crate::inequalities::inequalities;
use crate::limits::GREATEST_NUMBER;
use crate::list_end::ListEnd;
use std::alloc::Global;
use trop_reading::{ReadErr, input_end, line_end, text_err};
use trop_row::{Row, System};
use trop_scalar::{Flag, MaxInt, MinInt, Scalar};
use trop_spelling::{RingKind, Spelling, row_entries};
use trop_text::{Lexer, Names, Pieces, TextErr};

/// A file of a vector with inequalities.
#[derive(Drop)]
pub struct AtFile<S: Scalar> {
    /// The names of the variables, which are the coordinates from 1.
    pub names: Names,
    /// The inequalities.
    pub system: System<S>,
    /// The vector, with coordinate 0 in front.
    pub row: Row<S>,
}

/// A file of a vector with inequalities over any of the semirings.
#[derive(Drop)]
pub enum AnyAt {
    /// Over max-plus numbers.
    Max(AtFile<MaxInt>),
    /// Over min-plus numbers.
    Min(AtFile<MinInt>),
    /// Over truth values.
    Bool(AtFile<Flag>),
}

// The lines behind the header.
#[tactic(auto, unfolding(trop_grammar::specs::Reading::read_then, trop_grammar::specs::Reading::gives, crate::specs::AtFiles::at_body_at))]
fn at_lines<'a, S: Spelling>(
    alloc: Global,
    names: Names,
    at: Pieces<'a>,
) -> Result<(AtFile<S>, Pieces<'a>), ReadErr<'a>>
    requires { length names ≤ 63 }
    ensures gives { Gives (λ x. (at_of x.0, pieces_left x.1)) result
        (spec.at_body_at S.KIND S.ring S.numbering names (pieces_left at.entry)) }
    ensures names { IfOk result (λ x. x.0.names ≡ names) }
    ensures width { IfOk result (λ x. x.0.system.n ≡ length names + 1) }
    ensures row_width { IfOk result (λ x. length x.0.row ≡ length names + 1) }
{
    let n = names.len() + 1;
    let (system, rest) = inequalities(alloc, &names, at, ListEnd::At)?;
    let (entries, rest) = row_entries(alloc, rest, n, GREATEST_NUMBER)?;
    let rest = line_end(rest)?;
    let rest = input_end(rest)?;
    let row = Row::from_entries(alloc, entries.as_slice())?;
    Ok((AtFile { names, system, row }, rest))
}

// The file behind its header, in its semiring.
fn at_body<'a>(
    alloc: Global,
    header: Header,
    at: Pieces<'a>,
) -> Result<(AnyAt, Pieces<'a>), ReadErr<'a>>
    requires { length header.names ≤ 63 }
    ensures gives { Gives (λ x. (at_text_of x.0, pieces_left x.1)) result
        (file_rest_at spec.at_of_at spec.at_file (header_of header) (pieces_left at.entry)) }
    ensures width { IfOk result (λ x. IsWideAt x.0) }
{
    let Header {
        ring,
        names,
        vars_line: _,
    } = header;
    match ring {
        RingKind::Max => {
            let (file, rest) = at_lines(alloc, names, at)?;
            Ok((AnyAt::Max(file), rest))
        }
        RingKind::Min => {
            let (file, rest) = at_lines(alloc, names, at)?;
            Ok((AnyAt::Min(file), rest))
        }
        RingKind::Bool => {
            let (file, rest) = at_lines(alloc, names, at)?;
            Ok((AnyAt::Bool(file), rest))
        }
    }
}

// A file of a vector with inequalities.
#[tactic(auto, unfolding(trop_grammar::specs::Reading::read_then, crate::specs::Files::file_at))]
fn at_file<'a>(alloc: Global, at: Pieces<'a>) -> Result<(AnyAt, Pieces<'a>), ReadErr<'a>>
    ensures gives { Gives (λ x. (at_text_of x.0, pieces_left x.1)) result (spec.at_file_at (pieces_left at.entry)) }
    ensures width { IfOk result (λ x. IsWideAt x.0) }
{
    let (header, rest) = read_header(alloc, at, FileKind::At)?;
    at_body(alloc, header, rest)
}

/// Reads a file of a vector with inequalities.
///
/// A refusal is the first fault in the order of the file, or `NoMemory`.
pub fn read_at(alloc: Global, bytes: &[u8]) -> Result<AnyAt, TextErr>
    requires { length bytes.now ≤ 2 ^ 31 }
    // What is read is spelled so.
    ensures found { IfOk result (λ file. spec.SpellsAt (pieces_of bytes.now) (at_text_of file)) }
    // What is spelled so is read, unless memory runs out.
    ensures only { (file : spec.AtText) → spec.SpellsAt (pieces_of bytes.now) file →
        AnswersWith at_text_of result file }
    // A fault is the first one.
    ensures fault { IfErr result (IsRefusal spec.SpellsAt spec.at_file_at bytes.now) }
    ensures width { IfOk result IsWideAt }
{
    match at_file(alloc, Pieces::new(Lexer::new(bytes), 0)) {
        Ok((file, _)) => Ok(file),
        Err(e) => Err(text_err(bytes, e)),
    }
}
