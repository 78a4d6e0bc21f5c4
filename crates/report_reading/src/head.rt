//! The lines before the program.
ghost use Rattle.std.specs.Prelude.{◌≡◌, ◌≤◌, codes, nat_eq, IfOk};
ghost use Rattle.trop_grammar.specs.Reading.{token_at};
ghost use Rattle.trop_text.specs.Pieces.{piece_of, pieces_left, pieces_from, tokens_left};
ghost use Rattle.trop_text.specs.declared.fault.FaultKind.TheVariants.{Syntax};
ghost use Rattle.trop_reading.specs.Gives.{Gives, Passed};
ghost use Rattle.trop_reading.specs.Words.{number};
ghost use Rattle.report_texts.specs.Heads as spec;
ghost use Rattle.report_reading.specs.Words.{number_in};
ghost use Rattle.report_reading.specs.Heads.{version_of, mode_of, head_of, IsKnown};

use crate::steps::line_last;
use crate::words::{Number, next_digits};
use trop_reading::{ReadErr, line_end, number as bounded, said, says, settle};
use trop_text::{FaultKind, Piece, Pieces};

const MOST_DELAY: u64 = 1000;

const MOST_NARROW: u64 = 100;

const MOST_PASSES: u64 = 2039201;

// The version of a report.
#[derive(Clone, Copy)]
pub(crate) enum Version {
    First,
    Second,
}

// The mode of a report.
#[derive(Clone, Copy)]
pub(crate) enum Mode {
    Max,
    Min,
}

// What stands before the program.
#[derive(Clone, Copy)]
pub(crate) struct Head {
    pub(crate) mode: Mode,
    pub(crate) delay: u64,
    pub(crate) narrow: u64,
    pub(crate) passes: u64,
}

// The first line, whatever its number is.
#[tactic(auto, unfolding(trop_grammar::specs::Reading::read_then, trop_grammar::specs::Reading::gives, report_texts::specs::Heads::word_line_at))]
fn report_line<'a>(at: Pieces<'a>) -> Result<(Number<'a>, Pieces<'a>), ReadErr<'a>>
    ensures gives { Gives (λ x. (number_in x.0, pieces_left x.1)) result
        (spec.word_line_at (codes "report") spec.digits (pieces_left at.entry)) }
{
    let rest = said(at, b"report")?;
    let (number, rest) = next_digits(rest)?;
    let rest = line_end(rest)?;
    Ok((number, rest))
}

// The version of this number.
fn known<'a>(number: Number<'a>) -> Option<Version>
    ensures { IsKnown (number_in number.entry) result }
{
    if number.is(1) {
        Some(Version::First)
    } else if number.is(2) {
        Some(Version::Second)
    } else {
        None
    }
}

// The first line.
#[tactic(auto, using(crate::proofs::Versions::version_found, crate::proofs::Versions::version_other, crate::proofs::Versions::version_failed))]
pub(crate) fn read_version<'a>(at: Pieces<'a>) -> Result<(Version, Pieces<'a>), ReadErr<'a>>
    ensures { Gives (λ x. (version_of x.0, pieces_left x.1)) result (spec.version_at (pieces_left at.entry)) }
{
    let (number, rest) = report_line(at)?;
    match known(number) {
        Some(version) => Ok((version, rest)),
        None => Err(ReadErr::Wrong(FaultKind::ReportFault, line_last(at, rest))),
    }
}

// A line with a word and a number that is at most the bound.
#[tactic(auto, unfolding(trop_grammar::specs::Reading::token_at, trop_grammar::specs::Reading::read_then, trop_grammar::specs::Reading::gives, report_texts::specs::Heads::word_line_at))]
fn number_line<'a>(
    at: Pieces<'a>,
    word: &[u8],
    bound: u64,
) -> Result<(u64, Pieces<'a>), ReadErr<'a>>
    ensures gives { Gives (λ x. (x.0, pieces_left x.1)) result
        (spec.word_line_at word.now (number bound) (pieces_left at.entry)) }
    ensures within { IfOk result (λ x. x.0 ≤ bound) }
{
    let at = said(at, word)?;
    let Some((piece, rest)) = at.next() else {
        return Err(ReadErr::Wrong(FaultKind::Syntax, at));
    };
    let (n, rest) = settle(bounded(piece, bound), at, rest)?;
    let rest = line_end(rest)?;
    Ok((n, rest))
}

// `max` or `min`.
fn which_mode(piece: Piece<'_>) -> Result<Mode, FaultKind>
    ensures { Passed mode_of result (spec.which_mode (piece_of piece.entry)) }
{
    if says(piece, b"max") {
        Ok(Mode::Max)
    } else if says(piece, b"min") {
        Ok(Mode::Min)
    } else {
        Err(FaultKind::Syntax)
    }
}

// `max` or `min` at the place where a reader stands.
#[tactic(auto, unfolding(trop_grammar::specs::Reading::token_at))]
fn next_mode<'a>(at: Pieces<'a>) -> Result<(Mode, Pieces<'a>), ReadErr<'a>>
    ensures { Gives (λ x. (mode_of x.0, pieces_left x.1)) result
        (token_at Syntax spec.which_mode (pieces_left at.entry)) }
{
    let Some((piece, rest)) = at.next() else {
        return Err(ReadErr::Wrong(FaultKind::Syntax, at));
    };
    match which_mode(piece) {
        Ok(mode) => Ok((mode, rest)),
        Err(what) => Err(ReadErr::Wrong(what, at)),
    }
}

// The line of the mode.
#[tactic(auto, unfolding(trop_grammar::specs::Reading::read_then, trop_grammar::specs::Reading::gives, report_texts::specs::Heads::word_line_at))]
fn mode_line<'a>(at: Pieces<'a>) -> Result<(Mode, Pieces<'a>), ReadErr<'a>>
    ensures { Gives (λ x. (mode_of x.0, pieces_left x.1)) result
        (spec.word_line_at (codes "mode") spec.which_mode (pieces_left at.entry)) }
{
    let rest = said(at, b"mode")?;
    let (mode, rest) = next_mode(rest)?;
    let rest = line_end(rest)?;
    Ok((mode, rest))
}

// The line of the narrowing passes, which version 1 has not.
#[tactic(auto, unfolding(trop_grammar::specs::Reading::gives, report_texts::specs::Heads::narrow_line_at))]
fn narrow_line<'a>(version: Version, at: Pieces<'a>) -> Result<(u64, Pieces<'a>), ReadErr<'a>>
    ensures gives { Gives (λ x. (x.0, pieces_left x.1)) result
        (spec.narrow_line_at (nat_eq (version_of version) 2) (pieces_left at.entry)) }
    ensures within { IfOk result (λ x. x.0 ≤ 100) }
{
    match version {
        Version::First => Ok((0, at)),
        Version::Second => number_line(at, b"narrow", MOST_NARROW),
    }
}

// The lines behind the first, with that of the word `program`.
#[tactic(auto, unfolding(trop_grammar::specs::Reading::read_then, trop_grammar::specs::Reading::gives, report_texts::specs::Heads::head_at))]
pub(crate) fn read_head<'a>(
    version: Version,
    at: Pieces<'a>,
) -> Result<(Head, Pieces<'a>), ReadErr<'a>>
    ensures gives { Gives (λ x. (head_of x.0, pieces_left x.1)) result
        (spec.head_at (version_of version) (pieces_left at.entry)) }
    ensures delay { IfOk result (λ x. x.0.delay ≤ 1000) }
    ensures narrow { IfOk result (λ x. x.0.narrow ≤ 100) }
    ensures resumes { IfOk result (λ x. pieces_left x.1 ≡ pieces_from (tokens_left x.1) 0) }
{
    let (mode, rest) = mode_line(at)?;
    let (delay, rest) = number_line(rest, b"delay", MOST_DELAY)?;
    let (narrow, rest) = narrow_line(version, rest)?;
    let (passes, rest) = number_line(rest, b"passes", MOST_PASSES)?;
    let rest = said(rest, b"program")?;
    let rest = line_end(rest)?;
    let head = Head {
        mode,
        delay,
        narrow,
        passes,
    };
    Ok((head, rest))
}
