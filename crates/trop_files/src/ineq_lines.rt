//! Files of inequalities that are read line by line.
ghost use Rattle.std.specs.Prelude.{◌≡◌, ◌+◌, ◌≤◌, ◌<◌, ◌^◌, ◌++◌, List, [], codes, Some, None, Ok, Err, IfOk, IfErr, IfSome, IfNone, length};
ghost use Rattle.trop_theory.specs.Inequalities.{Inequality, IsIn, inequality_size};
ghost use Rattle.trop_text.specs.Pieces.{Piece, pieces_left, pieces_of};
ghost use Rattle.trop_text.specs.declared.fault.Fault.{Fault};
ghost use Rattle.trop_text.specs.declared.fault.TextErr.TheVariants.{Fault as FaultOf};
ghost use Rattle.trop_reading.specs.Gives.{Gives};
ghost use Rattle.trop_files.specs.Generators.{greatest_number};
ghost use Rattle.trop_files.specs.Header as header;
ghost use Rattle.trop_spelling.specs.Inequalities.{IsInequality};
ghost use Rattle.trop_files.specs.InequalityFiles.{SpellsInequalities, inequality_file_at, most_inequalities};
ghost use Rattle.trop_files.specs.InequalityLines as spec;
ghost use Rattle.trop_files.specs.Views.{IsOpenedAny, header_of};
ghost use Rattle.trop_reading.specs.Outcome.{IsNoFault, AnswersWith, IsRefusal};

use crate::file_kind::FileKind;
use crate::header::{Header, read_header};
use crate::inequalities::{MOST_INEQUALITIES, no_inequality};
use crate::limits::GREATEST_NUMBER;
use crate::list_end::ListEnd;
use std::alloc::Global;
use std::marker::{Model, PhantomData};
use trop_reading::{ReadErr, settle, text_err};
use trop_row::Ineq;
use trop_scalar::{Flag, MaxInt, MinInt, Scalar};
use trop_spelling::{RingKind, Spelling, inequality_rest, side_start};
use trop_text::{Fault, FaultKind, Lexer, Names, Pieces, TextErr};

/// A file of inequalities behind its header, which gives them one by one.
#[derive(Drop)]
pub struct IneqLines<'a, S: Spelling> {
    bytes: &'a [u8],
    names: Names,
    at: Pieces<'a>,
    count: u32,
    failed: Option<Fault>,
    semiring: PhantomData<S>,
}

impl<'a, S: Spelling> Model for IneqLines<'a, S> {
    ghost use Rattle.trop_text.specs.Pieces.{pieces_left};
    ghost use Rattle.trop_files.specs.InequalityLines.{LineReader, first_of, IsSound};

    ghost Value = { LineReader S };

    ghost view = { λ l. record {
      bytes = l.bytes.now;
      names = l.names;
      given =
          first_of S.KIND S.ring S.numbering l.count l.bytes.now;
      left = pieces_left l.at;
      failed = l.failed;
    } };

    ghost invariant = { λ l. IsSound S.KIND S.ring S.numbering l.bytes.now l.names l.count
        (pieces_left l.at) l.failed };
}

/// A file of inequalities over any of the semirings, line by line.
#[derive(Drop)]
pub enum AnyIneqLines<'a> {
    /// Over max-plus numbers.
    Max(IneqLines<'a, MaxInt>),
    /// Over min-plus numbers.
    Min(IneqLines<'a, MinInt>),
    /// Over truth values.
    Bool(IneqLines<'a, Flag>),
}

impl<'a, S: Spelling> IneqLines<'a, S> {
    /// The names of the variables, which are the coordinates from 1.
    pub fn names(&self) -> &Names
        ensures names { result.now ≡ self.now.names }
        ensures count { length self.now.names ≤ 63 }
    {
        &self.names
    }

    /// The next inequality; none where no line is left.
    ///
    /// After a fault each further call answers the same one. After `NoMemory` the reader is as before.
    pub fn next(&mut self, alloc: Global) -> Result<Option<Ineq<S>>, TextErr>
        // What is given is the inequality of the next line.
        ensures given { IfOk result (spec.GivesNext S.KIND S.ring S.numbering self.old self.new) }
        // Where no line is left, the text spells what was given.
        ensures found { IfOk result (λ o. IfNone o
            (SpellsInequalities (pieces_of self.old.bytes) (spec.file_given S.three.over self.old))) }

        // The inequality of the next line is given, unless memory runs out; and none where no line is left.
        ensures only { self.old.failed ≡ None → length self.old.given < most_inequalities →
            (line rest : List Piece) (x : Inequality S) → self.old.left ≡ line ++ rest →
            IsInequality S.KIND S.ring S.numbering greatest_number self.old.names line x →
            AnswersWith (λ o. o) result (Some x) }
        ensures end { self.old.failed ≡ None → spec.IsAtEnd self.old → AnswersWith (λ o. o) result None }

        // A fault is the first one of the text, and stays.
        ensures fault { IfErr result (IsRefusal SpellsInequalities inequality_file_at self.old.bytes) }
        ensures again { (f : Fault) → self.old.failed ≡ Some f → result ≡ Err (FaultOf f) }
        ensures kept { IfErr result (spec.KeepsFault self.old self.new) }

        ensures width { IfOk result (λ o. IfSome o (IsIn (length self.old.names + 1))) }
        ensures count { IfOk result (λ o. IfSome o (λ _. length self.old.given < most_inequalities)) }
        ensures size { IfOk result (λ o. IfSome o (λ x. inequality_size S.ring x ≤ 2 ^ 40)) }
    {
        if let Some(fault) = self.failed {
            return Err(TextErr::Fault(fault));
        }
        match next_line(alloc, &self.names, self.count, self.at) {
            Ok((ineq, rest)) => {
                if ineq.is_some() {
                    self.at = rest;
                    self.count += 1;
                }
                Ok(ineq)
            }
            Err(e) => {
                let e = text_err(self.bytes, e);
                if let TextErr::Fault(fault) = e {
                    self.failed = Some(fault);
                }
                Err(e)
            }
        }
    }
}

// The inequality of the next line behind `count` ones, or none at the end of the input.
#[tactic(auto, unfolding(trop_grammar::specs::Reading::token_at, trop_grammar::specs::Reading::read_then, trop_grammar::specs::Reading::gives, crate::specs::InequalityLines::line_at, crate::specs::InequalityLines::line_rest_at))]
fn next_line<'a, S: Spelling>(
    alloc: Global,
    names: &Names,
    count: u32,
    at: Pieces<'a>,
) -> Result<(Option<Ineq<S>>, Pieces<'a>), ReadErr<'a>>
    requires { length names.now ≤ 63 }
    ensures gives { Gives (λ x. (x.0, pieces_left x.1)) result
        (spec.line_at S.KIND S.ring S.numbering names.now count (pieces_left at.entry)) }
    ensures wide { IfOk result (λ x. IfSome x.0 (IsIn (length names.now + 1))) }
{
    if count >= MOST_INEQUALITIES {
        let rest = no_inequality::<S>(at, ListEnd::Input)?;
        return Ok((None, rest));
    }
    let Some((piece, rest)) = at.next() else {
        return Err(ReadErr::Wrong(FaultKind::Syntax, at));
    };
    if ListEnd::Input.is_at(piece) {
        return Ok((None, rest));
    }
    let (start, rest) = settle(side_start(names, piece, GREATEST_NUMBER), at, rest)?;
    let (ineq, rest) = inequality_rest(alloc, names, start, rest, GREATEST_NUMBER)?;
    Ok((Some(ineq), rest))
}

// The lines behind a header.
fn lines<'a, S: Spelling>(bytes: &'a [u8], names: Names, at: Pieces<'a>) -> IneqLines<'a, S>
    requires small { length bytes.now ≤ 2 ^ 31 }
    requires few { length names ≤ 63 }
    requires behind { spec.IsBehind S.KIND S.ring S.numbering bytes.now names 0 (pieces_left at) }
    ensures { result ≡ record {
      bytes = bytes.now;
      names = names;
      given =
          spec.first_of S.KIND S.ring S.numbering 0 bytes.now;
      left = pieces_left at.entry;
      failed = None;
    } }
{
    IneqLines {
        bytes,
        names,
        at,
        count: 0,
        failed: None,
        semiring: PhantomData,
    }
}

// The lines behind a header, in its semiring.
fn any_lines<'a>(bytes: &'a [u8], header: Header, at: Pieces<'a>) -> AnyIneqLines<'a>
    requires small { length bytes.now ≤ 2 ^ 31 }
    requires few { length header.names ≤ 63 }
    requires headed { spec.IsHeaded bytes.now (header_of header) (pieces_left at) }
    ensures { IsOpenedAny bytes.now result }
{
    let Header { ring, names, .. } = header;
    match ring {
        RingKind::Max => AnyIneqLines::Max(lines(bytes, names, at)),
        RingKind::Min => AnyIneqLines::Min(lines(bytes, names, at)),
        RingKind::Bool => AnyIneqLines::Bool(lines(bytes, names, at)),
    }
}

/// Reads the header of a file of inequalities.
///
/// A refusal is the first fault of the text, or `NoMemory`.
pub fn open_ineqs(alloc: Global, bytes: &[u8]) -> Result<AnyIneqLines<'_>, TextErr>
    requires { length bytes.now ≤ 2 ^ 31 }
    // The text begins with a header, behind which the reader stands.
    ensures opened { IfOk result (IsOpenedAny bytes.now) }
    // What begins with a header is opened, unless memory runs out.
    ensures only { (front rest : List Piece) (h : header.Header) → pieces_of bytes.now ≡ front ++ rest →
        header.IsHeader (codes "ineqs") front h → IfErr result IsNoFault }
    // A fault is the first one.
    ensures fault { IfErr result (IsRefusal SpellsInequalities inequality_file_at bytes.now) }
{
    match read_header(alloc, Pieces::new(Lexer::new(bytes), 0), FileKind::Ineqs) {
        Ok((header, rest)) => Ok(any_lines(bytes, header, rest)),
        Err(e) => Err(text_err(bytes, e)),
    }
}
