//! Lines of inequalities, and files of them.
ghost use Rattle.std.specs.Prelude.{◌≡◌, ◌+◌, ◌≤◌, ◌<◌, ◌^◌, IfOk, IfErr, length};
ghost use Rattle.trop_grammar.specs.Reading.{token_at};
ghost use Rattle.trop_grammar.specs.Lists.{list_step, next_of};
ghost use Rattle.trop_text.specs.Pieces.{piece_of, pieces_left, pieces_of};
ghost use Rattle.trop_text.specs.declared.fault.FaultKind.TheVariants.{Syntax};
ghost use Rattle.trop_files.specs.ListEnds.{ends};
ghost use Rattle.trop_reading.specs.Gives.{Gives};
ghost use Rattle.trop_files.specs.Generators.{greatest_number};
ghost use Rattle.trop_spelling.specs.Inequalities.{inequality_rest_at};
ghost use Rattle.trop_files.specs.InequalityFiles as spec;
ghost use Rattle.trop_files.specs.declared.list_end.ListEnd.TheVariants.{Input};
ghost use Rattle.trop_files.specs.Files.{file_rest_at};
ghost use Rattle.trop_files.specs.Views.{header_of, inequality_file_of, IsWideIneqs};
ghost use Rattle.trop_reading.specs.Outcome.{AnswersWith, IsRefusal};

use crate::file_kind::FileKind;
use crate::header::{Header, read_header};
use crate::limits::GREATEST_NUMBER;
use crate::list_end::ListEnd;
use std::alloc::Global;
use trop_reading::{ReadErr, is_digits, says, settle, text_err, text_of};
use trop_row::System;
use trop_scalar::{Flag, MaxInt, MinInt, Scalar};
use trop_spelling::{RingKind, Spelling, inequality_rest, side_start};
use trop_text::{FaultKind, Lexer, Names, Piece, Pieces, TextErr, is_name};

/// The most lines of inequalities in a file.
pub(crate) const MOST_INEQUALITIES: u32 = 1024;

/// A file of inequalities.
#[derive(Drop)]
pub struct IneqFile<S: Scalar> {
    /// The names of the variables, which are the coordinates from 1.
    pub names: Names,
    /// The inequalities; the coefficients of the constants stand at coordinate 0.
    pub system: System<S>,
}

/// A file of inequalities over any of the semirings.
#[derive(Drop)]
pub enum AnyIneqs {
    /// Over max-plus numbers.
    Max(IneqFile<MaxInt>),
    /// Over min-plus numbers.
    Min(IneqFile<MinInt>),
    /// Over truth values.
    Bool(IneqFile<Flag>),
}

// One more line, whose inequality is put behind those before; false at what ends the list.
#[tactic(auto, unfolding(trop_grammar::specs::Reading::token_at, trop_grammar::specs::Reading::read_then, trop_grammar::specs::Reading::gives, trop_grammar::specs::Lists::list_step, trop_grammar::specs::Lists::item_or_end))]
fn next_inequality<'a, S: Spelling>(
    alloc: Global,
    system: &mut System<S>,
    names: &Names,
    at: Pieces<'a>,
    end: ListEnd,
) -> Result<(bool, Pieces<'a>), ReadErr<'a>>
    requires names { length names.now ≤ 63 }
    requires width { system.old.n ≡ length names.now + 1 }
    requires room { length system.old.inequalities < 2 ^ 31 }
    ensures gives { Gives (λ x. (next_of x.0 system.new.inequalities, pieces_left x.1)) result
        (list_step Syntax (spec.next_inequality S.KIND S.ring S.numbering names.now (ends end))
        (λ before. inequality_rest_at S.KIND S.ring S.numbering greatest_number names.now) system.old.inequalities
        (pieces_left at.entry)) }
    ensures width { IfOk result (λ _. system.new.n ≡ system.old.n) }
    ensures count { IfOk result (λ _. length system.new.inequalities ≤ length system.old.inequalities + 1) }
{
    let Some((piece, rest)) = at.next() else {
        return Err(ReadErr::Wrong(FaultKind::Syntax, at));
    };
    if end.is_at(piece) {
        return Ok((false, rest));
    }
    let (start, rest) = settle(side_start(names, piece, GREATEST_NUMBER), at, rest)?;
    let (ineq, rest) = inequality_rest(alloc, names, start, rest, GREATEST_NUMBER)?;
    system.push(ineq)?;
    Ok((true, rest))
}

// Whether a constant can begin with the piece.
fn begins_constant<S: Spelling>(piece: Piece<'_>) -> bool
    ensures { result ≡ spec.begins_constant S.KIND (piece_of piece.entry) }
{
    match S::KIND {
        RingKind::Max => is_digits(piece) || says(piece, b"-"),
        RingKind::Min => is_digits(piece) || says(piece, b"-") || says(piece, b"oo"),
        RingKind::Bool => says(piece, b"true") || says(piece, b"false"),
    }
}

// Whether a line can begin with the piece.
fn begins_line<S: Spelling>(piece: Piece<'_>) -> bool
    ensures { result ≡ spec.begins_line S.KIND (piece_of piece.entry) }
{
    says(piece, S::sum_word()) || begins_constant::<S>(piece) || is_name(text_of(piece))
}

// What ends the list, where no line may follow.
#[tactic(auto, unfolding(trop_grammar::specs::Reading::token_at, crate::specs::InequalityFiles::past_inequalities))]
pub(crate) fn no_inequality<'a, S: Spelling>(
    at: Pieces<'a>,
    end: ListEnd,
) -> Result<Pieces<'a>, ReadErr<'a>>
    ensures { Gives (λ rest. (tt, pieces_left rest)) result
        (token_at Syntax (spec.no_inequality S.KIND (ends end)) (pieces_left at.entry)) }
{
    let Some((piece, rest)) = at.next() else {
        return Err(ReadErr::Wrong(FaultKind::Syntax, at));
    };
    if end.is_at(piece) {
        Ok(rest)
    } else if begins_line::<S>(piece) {
        Err(ReadErr::Wrong(FaultKind::TooManyLines, at))
    } else {
        Err(ReadErr::Wrong(FaultKind::Syntax, at))
    }
}

// Lines of inequalities, up to what ends them.
pub(crate) fn inequalities<'a, S: Spelling>(
    alloc: Global,
    names: &Names,
    at: Pieces<'a>,
    end: ListEnd,
) -> Result<(System<S>, Pieces<'a>), ReadErr<'a>>
    requires { length names.now ≤ 63 }
    ensures gives { Gives (λ x. (x.0.inequalities, pieces_left x.1)) result
        (spec.inequalities_at S.KIND S.ring S.numbering names.now (ends end) (pieces_left at.entry)) }
    ensures width { IfOk result (λ x. x.0.n ≡ length names.now + 1) }
{
    let mut system = System::new(alloc, names.len() + 1);
    let mut rest = at;
    'lines: for _ in 0..MOST_INEQUALITIES {
        let (more, after) = next_inequality(alloc, &mut system, names, rest, end)?;
        rest = after;
        if !more {
            return Ok((system, rest));
        }
    }
    let rest = no_inequality::<S>(rest, end)?;
    Ok((system, rest))
}

// The lines behind the header.
fn ineq_lines<'a, S: Spelling>(
    alloc: Global,
    names: Names,
    at: Pieces<'a>,
) -> Result<(IneqFile<S>, Pieces<'a>), ReadErr<'a>>
    requires { length names ≤ 63 }
    ensures gives { Gives (λ x. (x.0.system.inequalities, pieces_left x.1)) result
        (spec.inequalities_at S.KIND S.ring S.numbering names (ends Input) (pieces_left at.entry)) }
    ensures names { IfOk result (λ x. x.0.names ≡ names) }
    ensures width { IfOk result (λ x. x.0.system.n ≡ length names + 1) }
{
    let (system, rest) = inequalities(alloc, &names, at, ListEnd::Input)?;
    Ok((IneqFile { names, system }, rest))
}

// The file behind its header, in its semiring.
fn ineq_body<'a>(
    alloc: Global,
    header: Header,
    at: Pieces<'a>,
) -> Result<(AnyIneqs, Pieces<'a>), ReadErr<'a>>
    requires { length header.names ≤ 63 }
    ensures gives { Gives (λ x. (inequality_file_of x.0, pieces_left x.1)) result
        (file_rest_at spec.inequalities_of_at spec.inequality_file (header_of header) (pieces_left at.entry)) }
    ensures width { IfOk result (λ x. IsWideIneqs x.0) }
{
    let Header {
        ring,
        names,
        vars_line: _,
    } = header;
    match ring {
        RingKind::Max => {
            let (file, rest) = ineq_lines(alloc, names, at)?;
            Ok((AnyIneqs::Max(file), rest))
        }
        RingKind::Min => {
            let (file, rest) = ineq_lines(alloc, names, at)?;
            Ok((AnyIneqs::Min(file), rest))
        }
        RingKind::Bool => {
            let (file, rest) = ineq_lines(alloc, names, at)?;
            Ok((AnyIneqs::Bool(file), rest))
        }
    }
}

// A file of inequalities.
#[tactic(auto, unfolding(trop_grammar::specs::Reading::read_then, crate::specs::Files::file_at))]
fn ineq_file<'a>(alloc: Global, at: Pieces<'a>) -> Result<(AnyIneqs, Pieces<'a>), ReadErr<'a>>
    ensures gives { Gives (λ x. (inequality_file_of x.0, pieces_left x.1)) result
        (spec.inequality_file_at (pieces_left at.entry)) }
    ensures width { IfOk result (λ x. IsWideIneqs x.0) }
{
    let (header, rest) = read_header(alloc, at, FileKind::Ineqs)?;
    ineq_body(alloc, header, rest)
}

/// Reads a file of inequalities.
///
/// A refusal is the first fault in the order of the file, or `NoMemory`.
pub fn read_ineqs(alloc: Global, bytes: &[u8]) -> Result<AnyIneqs, TextErr>
    requires { length bytes.now ≤ 2 ^ 31 }
    // What is read is spelled so.
    ensures found { IfOk result (λ file. spec.SpellsInequalities (pieces_of bytes.now) (inequality_file_of file)) }
    // What is spelled so is read, unless memory runs out.
    ensures only { (file : spec.InequalityFile) → spec.SpellsInequalities (pieces_of bytes.now) file →
        AnswersWith inequality_file_of result file }
    // A fault is the first one.
    ensures fault { IfErr result (IsRefusal spec.SpellsInequalities spec.inequality_file_at bytes.now) }
    ensures width { IfOk result IsWideIneqs }
{
    match ineq_file(alloc, Pieces::new(Lexer::new(bytes), 0)) {
        Ok((file, _)) => Ok(file),
        Err(e) => Err(text_err(bytes, e)),
    }
}
