//! Single rows and inequalities, which end their line, from a lexer that is lent.
ghost use Rattle.std.specs.Prelude.{◌≡◌, ◌+◌, ◌≤◌, ◌^◌, List, IfOk, IfErr, OnErr, length};
ghost use Rattle.trop_theory.specs.Inequalities.{Inequality, IsIn};
ghost use Rattle.trop_grammar.specs.Grammar.{StartsWith};
ghost use Rattle.trop_text.specs.Lexer.{left, source};
ghost use Rattle.trop_text.specs.Pieces.{pieces_left, pieces_from, pieces_source, tokens_left};
ghost use Rattle.trop_reading.specs.Gives.{Gives};
ghost use Rattle.trop_reading.specs.Outcome.{AnswersWith, IsRefusalIn};
ghost use Rattle.trop_spelling.specs.Inequalities.{IsInequality, inequality_at};
ghost use Rattle.trop_spelling.specs.Parts.{IsRowLine, row_line_at};
ghost use Rattle.trop_reading.specs.InLines.{IsReadInLine};

use crate::elements::row_entries;
use crate::inequality::inequality_rest;
use crate::spelling::Spelling;
use crate::terms::side_start;
use std::alloc::Global;
use trop_reading::{ReadErr, line_end, part_err, settle};
use trop_row::{Ineq, Row};
use trop_text::{FaultKind, Lexer, Names, Pieces, TextErr};

// A row, and the end of its line.
#[tactic(auto, unfolding(trop_grammar::specs::Reading::read_then, trop_grammar::specs::Reading::gives, crate::specs::Parts::row_line_at))]
fn row_line<'a, S: Spelling>(
    alloc: Global,
    at: Pieces<'a>,
    len: u32,
    bound: u64,
) -> Result<(Row<S>, Pieces<'a>), ReadErr<'a>>
    requires len { len ≤ 64 }
    requires bound { bound ≤ 2 ^ 48 }
    ensures gives { Gives (λ x. (x.0, pieces_left x.1)) result
        (row_line_at S.KIND S.ring S.numbering bound len (pieces_left at.entry)) }
    ensures wide { IfOk result (λ x. length x.0 ≡ len) }
    ensures source { IfOk result (λ x. pieces_source x.1 ≡ pieces_source at.entry) }
    ensures resumes { IfOk result (λ x. pieces_left x.1 ≡ pieces_from (tokens_left x.1) 0) }
{
    let (entries, rest) = row_entries(alloc, at, len, bound)?;
    let rest = line_end(rest)?;
    let row = Row::from_entries(alloc, entries.as_slice())?;
    Ok((row, rest))
}

// An inequality, which ends with its line.
#[tactic(auto, unfolding(trop_grammar::specs::Reading::token_at, trop_grammar::specs::Reading::read_then, crate::specs::Inequalities::inequality_at))]
fn inequality_line<'a, S: Spelling>(
    alloc: Global,
    names: &Names,
    at: Pieces<'a>,
    bound: u64,
) -> Result<(Ineq<S>, Pieces<'a>), ReadErr<'a>>
    requires names { length names.now ≤ 63 }
    requires bound { bound ≤ 2 ^ 48 }
    ensures gives { Gives (λ x. (x.0, pieces_left x.1)) result
        (inequality_at S.KIND S.ring S.numbering bound names.now (pieces_left at.entry)) }
    ensures wide { IfOk result (λ x. IsIn (length names.now + 1) x.0) }
    ensures source { IfOk result (λ x. pieces_source x.1 ≡ pieces_source at.entry) }
    ensures resumes { IfOk result (λ x. pieces_left x.1 ≡ pieces_from (tokens_left x.1) 0) }
{
    let Some((piece, rest)) = at.next() else {
        return Err(ReadErr::Wrong(FaultKind::Syntax, at));
    };
    let (start, rest) = settle(side_start(names, piece, bound), at, rest)?;
    inequality_rest(alloc, names, start, rest, bound)
}

/// Reads a row of `len` elements, whose numbers have size at most `bound`, from the next tokens up to the end of the
/// line of this number, where 0 stands for the line of the first of them. A token of another line that comes first ends
/// the row there.
///
/// Behind the row the lexer goes on with the next line. A refusal is the first fault of these tokens and the end of
/// their line, or `NoMemory`.
pub fn read_row<'a, S: Spelling>(
    alloc: Global,
    lexer: &mut Lexer<'a>,
    line: u32,
    len: u32,
    bound: u64,
) -> Result<Row<S>, TextErr>
    requires len { len ≤ 64 }
    requires bound { bound ≤ 2 ^ 48 }
    // What is read is spelled so, and the tokens behind the line are left.
    ensures found { IfOk result (λ row. IsReadInLine (IsRowLine S.KIND S.ring S.numbering bound len) line
        (left lexer.old) row (left lexer.new)) }
    // What is spelled so is read, unless memory runs out.
    ensures only { (row : List S) → StartsWith (IsRowLine S.KIND S.ring S.numbering bound len)
        (pieces_from (left lexer.old) line) row → AnswersWith (λ (r : List S). r) result row }
    // A fault is the first one.
    ensures fault { IfErr result (IsRefusalIn (StartsWith (IsRowLine S.KIND S.ring S.numbering bound len))
        (row_line_at S.KIND S.ring S.numbering bound len) (source lexer.old) (pieces_from (left lexer.old) line)) }
    ensures stays { OnErr result (lexer.new ≡ lexer.old) }
    ensures source { source lexer.new ≡ source lexer.old }
    ensures width { IfOk result (λ row. length row ≡ len) }
{
    let start = lexer.copy();
    match row_line(alloc, Pieces::new(start, line), len, bound) {
        Ok((row, rest)) => {
            *lexer = rest.lexer();
            Ok(row)
        }
        Err(e) => Err(part_err(&start, e)),
    }
}

/// Reads an inequality in the variables with these names, whose numbers have size at most `bound`, from the next tokens
/// up to the end of the line of this number, where 0 stands for the line of the first of them. A token of another line
/// that comes first ends the inequality there.
///
/// Behind the inequality the lexer goes on with the next line. A refusal is the first fault of these tokens and the end
/// of their line, or `NoMemory`.
pub fn read_ineq<'a, S: Spelling>(
    alloc: Global,
    lexer: &mut Lexer<'a>,
    line: u32,
    names: &Names,
    bound: u64,
) -> Result<Ineq<S>, TextErr>
    requires names { length names.now ≤ 63 }
    requires bound { bound ≤ 2 ^ 48 }
    // What is read is spelled so, and the tokens behind the line are left.
    ensures found { IfOk result (λ ineq. IsReadInLine (IsInequality S.KIND S.ring S.numbering bound names.now) line
        (left lexer.old) ineq (left lexer.new)) }
    // What is spelled so is read, unless memory runs out.
    ensures only { (ineq : Inequality S) → StartsWith (IsInequality S.KIND S.ring S.numbering bound names.now)
        (pieces_from (left lexer.old) line) ineq → AnswersWith (λ (p : Inequality S). p) result ineq }
    // A fault is the first one.
    ensures fault { IfErr result (IsRefusalIn (StartsWith (IsInequality S.KIND S.ring S.numbering bound names.now))
        (inequality_at S.KIND S.ring S.numbering bound names.now) (source lexer.old)
        (pieces_from (left lexer.old) line)) }
    ensures stays { OnErr result (lexer.new ≡ lexer.old) }
    ensures source { source lexer.new ≡ source lexer.old }
    ensures width { IfOk result (IsIn (length names.now + 1)) }
{
    let start = lexer.copy();
    match inequality_line(alloc, names, Pieces::new(start, line), bound) {
        Ok((ineq, rest)) => {
            *lexer = rest.lexer();
            Ok(ineq)
        }
        Err(e) => Err(part_err(&start, e)),
    }
}
