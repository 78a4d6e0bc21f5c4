//! Lines of generators, and files of them.
ghost use Rattle.std.specs.Prelude.{◌≡◌, ◌+◌, ◌≤◌, ◌<◌, ◌^◌, ◌++◌, ◌∷◌, [], IfOk, IfErr, length};
ghost use Rattle.std.specs.List.{list_any};
ghost use Rattle.trop_theory.specs.Vectors.{AreWide};
ghost use Rattle.trop_grammar.specs.Reading.{token_at};
ghost use Rattle.trop_grammar.specs.Lists.{list_step, next_of};
ghost use Rattle.trop_text.specs.Pieces.{piece_of, pieces_left, pieces_of};
ghost use Rattle.trop_text.specs.declared.fault.FaultKind.TheVariants.{Syntax};
ghost use Rattle.trop_files.specs.ListEnds.{ends};
ghost use Rattle.trop_reading.specs.Gives.{Gives};
ghost use Rattle.trop_files.specs.Generators as spec;
ghost use Rattle.trop_files.specs.declared.list_end.ListEnd.TheVariants.{Input};
ghost use Rattle.trop_files.specs.Files.{file_rest_at};
ghost use Rattle.trop_files.specs.Views.{header_of, generator_file_of, IsWideGens};
ghost use Rattle.trop_reading.specs.Outcome.{AnswersWith, IsRefusal};

use crate::file_kind::FileKind;
use crate::header::{Header, read_header};
use crate::limits::GREATEST_NUMBER;
use crate::list_end::ListEnd;
use std::alloc::{AllocError, Global};
use trop_reading::{ReadErr, line_end, says, settle, text_err};
use trop_row::{Gens, Row};
use trop_scalar::{Flag, MaxInt, MinInt, Scalar};
use trop_spelling::{RingKind, Spelling, row_entries};
use trop_text::{FaultKind, Lexer, Names, Piece, Pieces, TextErr};

/// The most lines of generators in one list.
const MOST_GENERATORS: u32 = 4096;

/// A file of generators.
#[derive(Drop)]
pub struct GenFile<S: Scalar> {
    /// The names of the variables, which are the coordinates from 1.
    pub names: Names,
    /// The vectors, with coordinate 0 in front: the one in a point, the zero in a ray. A ray whose elements are all the
    /// zero is left out.
    pub gens: Gens<S>,
    /// The line of the word `vars`.
    pub vars_line: u32,
}

/// A file of generators over any of the semirings.
#[derive(Drop)]
pub enum AnyGens {
    /// Over max-plus numbers.
    Max(GenFile<MaxInt>),
    /// Over min-plus numbers.
    Min(GenFile<MinInt>),
    /// Over truth values.
    Bool(GenFile<Flag>),
}

// `point` or `ray`, as the entry at coordinate 0.
#[tactic(auto, unfolding(crate::specs::Generators::generator_word))]
fn generator_word<S: Scalar>(piece: Piece<'_>) -> Result<S, FaultKind>
    ensures { result ≡ spec.generator_word S.ring (piece_of piece.entry) }
{
    if says(piece, b"point") {
        Ok(S::one())
    } else if says(piece, b"ray") {
        Ok(S::zero())
    } else {
        Err(FaultKind::Syntax)
    }
}

// The rest of a line that begins with `first`, as the whole vector.
#[tactic(auto, unfolding(trop_grammar::specs::Reading::read_then, trop_grammar::specs::Reading::gives, crate::specs::Generators::generator_at))]
fn generator<'a, S: Spelling>(
    alloc: Global,
    first: S,
    at: Pieces<'a>,
    vars: u32,
) -> Result<(Row<S>, Pieces<'a>), ReadErr<'a>>
    requires { vars ≤ 63 }
    ensures gives { Gives (λ x. (x.0, pieces_left x.1)) result
        (spec.generator_at S.KIND S.ring S.numbering vars first (pieces_left at.entry)) }
    ensures wide { IfOk result (λ x. length x.0 ≡ vars + 1) }
{
    let (mut entries, rest) = row_entries(alloc, at, vars, GREATEST_NUMBER)?;
    let rest = line_end(rest)?;
    entries.insert(0, first)?;
    let row = Row::from_entries(alloc, &entries)?;
    Ok((row, rest))
}

// One more line, which is put behind those before; false at what ends the list.
#[tactic(auto, unfolding(trop_grammar::specs::Reading::token_at, trop_grammar::specs::Reading::read_then, trop_grammar::specs::Reading::gives, trop_grammar::specs::Lists::list_step, trop_grammar::specs::Lists::item_or_end))]
fn next_generator<'a, S: Spelling>(
    alloc: Global,
    rows: &mut Vec<Row<S>>,
    at: Pieces<'a>,
    vars: u32,
    end: ListEnd,
) -> Result<(bool, Pieces<'a>), ReadErr<'a>>
    requires vars { vars ≤ 63 }
    requires wide { AreWide (vars + 1) rows.old.items }
    ensures gives { Gives (λ x. (next_of x.0 rows.new.items, pieces_left x.1)) result
        (list_step Syntax (spec.next_generator S.ring (ends end))
        (λ rows. spec.generator_at S.KIND S.ring S.numbering vars) rows.old.items (pieces_left at.entry)) }
    ensures wide { IfOk result (λ x. AreWide (vars + 1) rows.new.items) }
    ensures count { IfOk result (λ x. length rows.new.items ≤ length rows.old.items + 1) }
{
    let Some((piece, rest)) = at.next() else {
        return Err(ReadErr::Wrong(FaultKind::Syntax, at));
    };
    if end.is_at(piece) {
        return Ok((false, rest));
    }
    let (first, rest) = settle(generator_word(piece), at, rest)?;
    let (row, rest) = generator(alloc, first, rest, vars)?;
    rows.push(row)?;
    Ok((true, rest))
}

// What ends the list, where no line may follow.
#[tactic(auto, unfolding(trop_grammar::specs::Reading::token_at, crate::specs::Generators::past_generators))]
fn no_generator<'a>(at: Pieces<'a>, end: ListEnd) -> Result<Pieces<'a>, ReadErr<'a>>
    ensures { Gives (λ rest. (tt, pieces_left rest)) result
        (token_at Syntax (spec.no_generator (ends end)) (pieces_left at.entry)) }
{
    let Some((piece, rest)) = at.next() else {
        return Err(ReadErr::Wrong(FaultKind::Syntax, at));
    };
    if end.is_at(piece) {
        Ok(rest)
    } else if says(piece, b"point") || says(piece, b"ray") {
        Err(ReadErr::Wrong(FaultKind::TooManyLines, at))
    } else {
        Err(ReadErr::Wrong(FaultKind::Syntax, at))
    }
}

// Lines of generators, up to what ends them.
fn generator_lines<'a, S: Spelling>(
    alloc: Global,
    at: Pieces<'a>,
    vars: u32,
    end: ListEnd,
) -> Result<(Vec<Row<S>>, Pieces<'a>), ReadErr<'a>>
    requires { vars ≤ 63 }
    ensures gives { Gives (λ x. (x.0.items, pieces_left x.1)) result
        (spec.generator_lines_at S.KIND S.ring S.numbering vars (ends end) (pieces_left at.entry)) }
    ensures wide { IfOk result (λ x. AreWide (vars + 1) x.0.items) }
    ensures count { IfOk result (λ x. length x.0.items ≤ 4096) }
{
    let mut rows = Vec::new(alloc);
    let mut rest = at;
    'lines: for _ in 0..MOST_GENERATORS {
        let (more, after) = next_generator(alloc, &mut rows, rest, vars, end)?;
        rest = after;
        if !more {
            return Ok((rows, rest));
        }
    }
    let rest = no_generator(rest, end)?;
    Ok((rows, rest))
}

// Whether a vector has a finite element.
fn is_finite<S: Scalar>(row: &Row<S>) -> bool
    ensures { result ≡ list_any (spec.is_finite S.numbering) row.now }
{
    row.as_slice().iter().any(|x| x.number().is_some())
}

// Puts the vector behind those kept, if it has a finite element.
fn keep<S: Scalar>(kept: &mut Vec<Row<S>>, row: Row<S>, vars: u32) -> Result<(), AllocError>
    requires wide { AreWide (vars + 1) kept.old.items }
    requires row_wide { length row ≡ vars + 1 }
    ensures kept { IfOk result (λ _. kept.new.items ≡ kept.old.items ++ spec.kept S.numbering (row ∷ [])) }
    ensures wide { IfOk result (λ _. AreWide (vars + 1) kept.new.items) }
    ensures count { IfOk result (λ _. length kept.new.items ≤ length kept.old.items + 1) }
{
    if is_finite(&row) {
        kept.push(row)?;
    }
    Ok(())
}

// The vectors that have a finite element.
fn kept_rows<S: Scalar>(
    alloc: Global,
    lines: Vec<Row<S>>,
    vars: u32,
) -> Result<Vec<Row<S>>, AllocError>
    requires wide { AreWide (vars + 1) lines.items }
    ensures kept { IfOk result (λ rows. rows.items ≡ spec.kept S.numbering lines.items) }
    ensures wide { IfOk result (λ rows. AreWide (vars + 1) rows.items) }
    ensures count { IfOk result (λ rows. length rows.items ≤ length lines.items) }
{
    let mut lines = lines;
    lines.reverse();
    let mut kept = Vec::new(alloc);
    'lines: while let Some(row) = lines.pop() {
        keep(&mut kept, row, vars)?;
    }
    Ok(kept)
}

// The vectors of lines of generators; a line whose elements are all the zero adds nothing.
#[tactic(auto, unfolding(trop_grammar::specs::Reading::read_then, trop_grammar::specs::Reading::gives, crate::specs::Generators::generators_at))]
pub(crate) fn generators<'a, S: Spelling>(
    alloc: Global,
    at: Pieces<'a>,
    vars: u32,
    end: ListEnd,
) -> Result<(Vec<Row<S>>, Pieces<'a>), ReadErr<'a>>
    requires { vars ≤ 63 }
    ensures gives { Gives (λ x. (x.0.items, pieces_left x.1)) result
        (spec.generators_at S.KIND S.ring S.numbering vars (ends end) (pieces_left at.entry)) }
    ensures wide { IfOk result (λ x. AreWide (vars + 1) x.0.items) }
    ensures count { IfOk result (λ x. length x.0.items ≤ 4096) }
{
    let (lines, rest) = generator_lines(alloc, at, vars, end)?;
    let rows = kept_rows(alloc, lines, vars)?;
    Ok((rows, rest))
}

// The lines behind the header.
fn gen_lines<'a, S: Spelling>(
    alloc: Global,
    names: Names,
    vars_line: u32,
    at: Pieces<'a>,
) -> Result<(GenFile<S>, Pieces<'a>), ReadErr<'a>>
    requires { length names ≤ 63 }
    ensures gives { Gives (λ x. (x.0.gens.rows, pieces_left x.1)) result
        (spec.generators_at S.KIND S.ring S.numbering (length names) (ends Input) (pieces_left at.entry)) }
    ensures names { IfOk result (λ x. x.0.names ≡ names) }
    ensures line { IfOk result (λ x. x.0.vars_line ≡ vars_line) }
    ensures width { IfOk result (λ x. x.0.gens.n ≡ length names + 1) }
{
    let vars = names.len();
    let (rows, rest) = generators(alloc, at, vars, ListEnd::Input)?;
    let gens = Gens::from_rows(vars + 1, rows);
    let file = GenFile {
        names,
        gens,
        vars_line,
    };
    Ok((file, rest))
}

// The file behind its header, in its semiring.
fn gen_body<'a>(
    alloc: Global,
    header: Header,
    at: Pieces<'a>,
) -> Result<(AnyGens, Pieces<'a>), ReadErr<'a>>
    requires { length header.names ≤ 63 }
    ensures gives { Gives (λ x. (generator_file_of x.0, pieces_left x.1)) result
        (file_rest_at spec.generators_of_at spec.generator_file (header_of header) (pieces_left at.entry)) }
    ensures width { IfOk result (λ x. IsWideGens x.0) }
{
    let Header {
        ring,
        names,
        vars_line,
    } = header;
    match ring {
        RingKind::Max => {
            let (file, rest) = gen_lines(alloc, names, vars_line, at)?;
            Ok((AnyGens::Max(file), rest))
        }
        RingKind::Min => {
            let (file, rest) = gen_lines(alloc, names, vars_line, at)?;
            Ok((AnyGens::Min(file), rest))
        }
        RingKind::Bool => {
            let (file, rest) = gen_lines(alloc, names, vars_line, at)?;
            Ok((AnyGens::Bool(file), rest))
        }
    }
}

// A file of generators.
#[tactic(auto, unfolding(trop_grammar::specs::Reading::read_then, crate::specs::Files::file_at))]
fn gen_file<'a>(alloc: Global, at: Pieces<'a>) -> Result<(AnyGens, Pieces<'a>), ReadErr<'a>>
    ensures gives { Gives (λ x. (generator_file_of x.0, pieces_left x.1)) result
        (spec.generator_file_at (pieces_left at.entry)) }
    ensures width { IfOk result (λ x. IsWideGens x.0) }
{
    let (header, rest) = read_header(alloc, at, FileKind::Gens)?;
    gen_body(alloc, header, rest)
}

/// Reads a file of generators.
///
/// A refusal is the first fault in the order of the file, or `NoMemory`.
pub fn read_gens(alloc: Global, bytes: &[u8]) -> Result<AnyGens, TextErr>
    requires { length bytes.now ≤ 2 ^ 31 }
    // What is read is spelled so.
    ensures found { IfOk result (λ file. spec.SpellsGenerators (pieces_of bytes.now) (generator_file_of file)) }
    // What is spelled so is read, unless memory runs out.
    ensures only { (file : spec.GeneratorFile) → spec.SpellsGenerators (pieces_of bytes.now) file →
        AnswersWith generator_file_of result file }
    // A fault is the first one.
    ensures fault { IfErr result (IsRefusal spec.SpellsGenerators spec.generator_file_at bytes.now) }
    ensures width { IfOk result IsWideGens }
{
    match gen_file(alloc, Pieces::new(Lexer::new(bytes), 0)) {
        Ok((file, _)) => Ok(file),
        Err(e) => Err(text_err(bytes, e)),
    }
}
