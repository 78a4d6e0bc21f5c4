//! Files of two lists of generators.
ghost use Rattle.std.specs.Prelude.{◌≡◌, ◌+◌, ◌≤◌, ◌^◌, IfOk, IfErr, length};
ghost use Rattle.trop_text.specs.Pieces.{pieces_left, pieces_of};
ghost use Rattle.trop_reading.specs.Gives.{Gives};
ghost use Rattle.trop_files.specs.PairFiles as spec;
ghost use Rattle.trop_files.specs.Files.{file_rest_at};
ghost use Rattle.trop_files.specs.Views.{header_of, two_of, two_file_of, IsWidePair};
ghost use Rattle.trop_reading.specs.Outcome.{AnswersWith, IsRefusal};

use crate::file_kind::FileKind;
use crate::generators::generators;
use crate::header::{Header, read_header};
use crate::list_end::ListEnd;
use std::alloc::Global;
use trop_reading::{ReadErr, line_end, text_err};
use trop_row::Gens;
use trop_scalar::{Flag, MaxInt, MinInt, Scalar};
use trop_spelling::{RingKind, Spelling};
use trop_text::{Lexer, Names, Pieces, TextErr};

/// A file of two lists of generators.
#[derive(Drop)]
pub struct PairFile<S: Scalar> {
    /// The names of the variables, which are the coordinates from 1.
    pub names: Names,
    /// The vectors before the line `and`, with coordinate 0 in front.
    pub left: Gens<S>,
    /// The vectors behind it.
    pub right: Gens<S>,
}

/// A file of two lists of generators over any of the semirings.
#[derive(Drop)]
pub enum AnyPair {
    /// Over max-plus numbers.
    Max(PairFile<MaxInt>),
    /// Over min-plus numbers.
    Min(PairFile<MinInt>),
    /// Over truth values.
    Bool(PairFile<Flag>),
}

// The lines behind the header.
#[tactic(auto, unfolding(trop_grammar::specs::Reading::read_then, trop_grammar::specs::Reading::gives, crate::specs::PairFiles::two_at))]
fn two<'a, S: Spelling>(
    alloc: Global,
    names: Names,
    at: Pieces<'a>,
) -> Result<(PairFile<S>, Pieces<'a>), ReadErr<'a>>
    requires { length names ≤ 63 }
    ensures gives { Gives (λ x. (two_of x.0, pieces_left x.1)) result
        (spec.two_at S.KIND S.ring S.numbering (length names) (pieces_left at.entry)) }
    ensures names { IfOk result (λ x. x.0.names ≡ names) }
    ensures left_width { IfOk result (λ x. x.0.left.n ≡ length names + 1) }
    ensures right_width { IfOk result (λ x. x.0.right.n ≡ length names + 1) }
{
    let vars = names.len();
    let (left, rest) = generators(alloc, at, vars, ListEnd::And)?;
    let rest = line_end(rest)?;
    let (right, rest) = generators(alloc, rest, vars, ListEnd::Input)?;
    let left = Gens::from_rows(vars + 1, left);
    let right = Gens::from_rows(vars + 1, right);
    Ok((PairFile { names, left, right }, rest))
}

// The file behind its header, in its semiring.
fn pair_body<'a>(
    alloc: Global,
    header: Header,
    at: Pieces<'a>,
) -> Result<(AnyPair, Pieces<'a>), ReadErr<'a>>
    requires { length header.names ≤ 63 }
    ensures gives { Gives (λ x. (two_file_of x.0, pieces_left x.1)) result
        (file_rest_at spec.two_of_at spec.two_file (header_of header) (pieces_left at.entry)) }
    ensures width { IfOk result (λ x. IsWidePair x.0) }
{
    let Header {
        ring,
        names,
        vars_line: _,
    } = header;
    match ring {
        RingKind::Max => {
            let (file, rest) = two(alloc, names, at)?;
            Ok((AnyPair::Max(file), rest))
        }
        RingKind::Min => {
            let (file, rest) = two(alloc, names, at)?;
            Ok((AnyPair::Min(file), rest))
        }
        RingKind::Bool => {
            let (file, rest) = two(alloc, names, at)?;
            Ok((AnyPair::Bool(file), rest))
        }
    }
}

// A file of two lists of generators.
#[tactic(auto, unfolding(trop_grammar::specs::Reading::read_then, crate::specs::Files::file_at))]
fn pair_file<'a>(alloc: Global, at: Pieces<'a>) -> Result<(AnyPair, Pieces<'a>), ReadErr<'a>>
    ensures gives { Gives (λ x. (two_file_of x.0, pieces_left x.1)) result (spec.two_file_at (pieces_left at.entry)) }
    ensures width { IfOk result (λ x. IsWidePair x.0) }
{
    let (header, rest) = read_header(alloc, at, FileKind::Pair)?;
    pair_body(alloc, header, rest)
}

/// Reads a file of two lists of generators.
///
/// A refusal is the first fault in the order of the file, or `NoMemory`.
pub fn read_pair(alloc: Global, bytes: &[u8]) -> Result<AnyPair, TextErr>
    requires { length bytes.now ≤ 2 ^ 31 }
    // What is read is spelled so.
    ensures found { IfOk result (λ file. spec.SpellsTwo (pieces_of bytes.now) (two_file_of file)) }
    // What is spelled so is read, unless memory runs out.
    ensures only { (file : spec.TwoFile) → spec.SpellsTwo (pieces_of bytes.now) file →
        AnswersWith two_file_of result file }
    // A fault is the first one.
    ensures fault { IfErr result (IsRefusal spec.SpellsTwo spec.two_file_at bytes.now) }
    ensures width { IfOk result IsWidePair }
{
    match pair_file(alloc, Pieces::new(Lexer::new(bytes), 0)) {
        Ok((file, _)) => Ok(file),
        Err(e) => Err(text_err(bytes, e)),
    }
}
