//! The header of a file.
ghost use Rattle.std.specs.Prelude.{◌≡◌, ◌+◌, ◌≤◌, ◌<◌, ◌^◌, IfOk, length};
ghost use Rattle.std.specs.List.{list_any};
ghost use Rattle.trop_grammar.specs.Reading.{token_at};
ghost use Rattle.trop_grammar.specs.Lists.{list_step, next_of};
ghost use Rattle.trop_text.specs.Pieces.{piece_of, pieces_left};
ghost use Rattle.trop_text.specs.declared.fault.FaultKind.TheVariants.{Syntax};
ghost use Rattle.trop_files.specs.FileKinds.{word_of};
ghost use Rattle.trop_reading.specs.Gives.{Gives};
ghost use Rattle.trop_reading.specs.Words as words;
ghost use Rattle.trop_files.specs.Header as spec;
ghost use Rattle.trop_files.specs.Views.{header_of};

use crate::file_kind::FileKind;
use std::alloc::Global;
use trop_reading::{ReadErr, line_end, said, says, settle, text_of};
use trop_spelling::RingKind;
use trop_text::{FaultKind, Names, Piece, Pieces, as_name, is_name};

/// The most variables that a file may have.
const MOST_NAMES: u32 = 63;

/// What a header says: the semiring, the names of the variables, and the line of the word `vars`.
#[derive(Drop)]
pub(crate) struct Header {
    pub(crate) ring: RingKind,
    pub(crate) names: Names,
    pub(crate) vars_line: u32,
}

// Whether the piece is the word of any kind of file.
fn is_kind(piece: Piece<'_>) -> bool
    ensures { result ≡ list_any (λ kind. words.says kind (piece_of piece.entry)) spec.kinds }
{
    says(piece, b"ineqs") || says(piece, b"gens") || says(piece, b"pair") || says(piece, b"at")
}

// The word of the wanted kind.
fn kind_word(piece: Piece<'_>, wanted: FileKind) -> Result<(), FaultKind>
    ensures { result ≡ spec.kind_word (word_of wanted) (piece_of piece.entry) }
{
    if says(piece, wanted.word()) {
        Ok(())
    } else if is_kind(piece) {
        Err(FaultKind::WrongKind)
    } else {
        Err(FaultKind::Syntax)
    }
}

// The word of a semiring.
fn semiring_word(piece: Piece<'_>) -> Result<RingKind, FaultKind>
    ensures { result ≡ spec.semiring_word (piece_of piece.entry) }
{
    if says(piece, b"max") {
        Ok(RingKind::Max)
    } else if says(piece, b"min") {
        Ok(RingKind::Min)
    } else if says(piece, b"bool") {
        Ok(RingKind::Bool)
    } else {
        Err(FaultKind::Syntax)
    }
}

// The line of the word `vars`.
fn vars_word(piece: Piece<'_>) -> Result<u32, FaultKind>
    ensures { result ≡ spec.vars_word (piece_of piece.entry) }
{
    match piece {
        Piece::Token(token) if says(piece, b"vars") => Ok(token.line),
        _ => Err(FaultKind::Syntax),
    }
}

// The first line, with the word of the kind.
#[tactic(auto, unfolding(trop_grammar::specs::Reading::token_at, trop_grammar::specs::Reading::read_then, crate::specs::Header::kind_line_at))]
fn kind_line<'a>(at: Pieces<'a>, wanted: FileKind) -> Result<Pieces<'a>, ReadErr<'a>>
    ensures { Gives (λ rest. (tt, pieces_left rest)) result (spec.kind_line_at (word_of wanted) (pieces_left at.entry)) }
{
    let at = said(at, b"kind")?;
    let Some((piece, rest)) = at.next() else {
        return Err(ReadErr::Wrong(FaultKind::Syntax, at));
    };
    let (_, rest) = settle(kind_word(piece, wanted), at, rest)?;
    line_end(rest)
}

// The second line, with the word of the semiring.
#[tactic(auto, unfolding(trop_grammar::specs::Reading::token_at, trop_grammar::specs::Reading::read_then, trop_grammar::specs::Reading::gives, crate::specs::Header::semiring_line_at))]
fn semiring_line<'a>(at: Pieces<'a>) -> Result<(RingKind, Pieces<'a>), ReadErr<'a>>
    ensures { Gives (λ x. (x.0, pieces_left x.1)) result (spec.semiring_line_at (pieces_left at.entry)) }
{
    let at = said(at, b"semiring")?;
    let Some((piece, rest)) = at.next() else {
        return Err(ReadErr::Wrong(FaultKind::Syntax, at));
    };
    let (ring, rest) = settle(semiring_word(piece), at, rest)?;
    let rest = line_end(rest)?;
    Ok((ring, rest))
}

// The word `vars`, as its line.
#[tactic(auto, unfolding(trop_grammar::specs::Reading::token_at))]
fn vars<'a>(at: Pieces<'a>) -> Result<(u32, Pieces<'a>), ReadErr<'a>>
    ensures { Gives (λ x. (x.0, pieces_left x.1)) result (token_at Syntax spec.vars_word (pieces_left at.entry)) }
{
    match at.next() {
        Some((piece, rest)) => settle(vars_word(piece), at, rest),
        None => Err(ReadErr::Wrong(FaultKind::Syntax, at)),
    }
}

// One more name, which is put behind those before; false at the end of the line.
#[tactic(auto, unfolding(trop_grammar::specs::Reading::token_at, trop_grammar::specs::Reading::read_then, trop_grammar::specs::Reading::gives, trop_grammar::specs::Lists::list_step, trop_grammar::specs::Lists::item_or_end, crate::specs::Header::name_at, crate::specs::Header::new_name))]
fn next_name<'a>(
    alloc: Global,
    names: &mut Names,
    at: Pieces<'a>,
) -> Result<(bool, Pieces<'a>), ReadErr<'a>>
    requires { length names.old < 2 ^ 31 }
    ensures gives { Gives (λ x. (next_of x.0 names.new, pieces_left x.1)) result
        (list_step Syntax spec.next_name spec.name_at names.old (pieces_left at.entry)) }
    ensures count { IfOk result (λ x. length names.new ≤ length names.old + 1) }
{
    let Some((piece, rest)) = at.next() else {
        return Err(ReadErr::Wrong(FaultKind::Syntax, at));
    };
    if let Piece::LineEnd(_) = piece {
        return Ok((false, rest));
    }
    let Some(name) = as_name(text_of(piece)) else {
        return Err(ReadErr::Wrong(FaultKind::Syntax, at));
    };
    if names.position(name).is_some() {
        return Err(ReadErr::Wrong(FaultKind::DuplicateName, at));
    }
    let _ = names.push(alloc, name)?;
    Ok((true, rest))
}

// The end of the line, where no name may follow.
#[tactic(auto, unfolding(trop_grammar::specs::Reading::token_at, crate::specs::Header::past_names))]
fn no_name<'a>(at: Pieces<'a>) -> Result<Pieces<'a>, ReadErr<'a>>
    ensures { Gives (λ rest. (tt, pieces_left rest)) result (token_at Syntax spec.no_name (pieces_left at.entry)) }
{
    match at.next() {
        Some((Piece::LineEnd(_), rest)) => Ok(rest),
        Some((piece, _)) if is_name(text_of(piece)) => Err(ReadErr::Wrong(
            FaultKind::TooManyVars,
            at,
        )),
        _ => Err(ReadErr::Wrong(FaultKind::Syntax, at)),
    }
}

// The names of the variables, up to the end of the line.
fn read_names<'a>(alloc: Global, at: Pieces<'a>) -> Result<(Names, Pieces<'a>), ReadErr<'a>>
    ensures gives { Gives (λ x. (x.0, pieces_left x.1)) result (spec.names_at (pieces_left at.entry)) }
    ensures count { IfOk result (λ x. length x.0 ≤ 63) }
{
    let mut names = Names::new(alloc);
    let mut rest = at;
    'names: for _ in 0..MOST_NAMES {
        let (more, after) = next_name(alloc, &mut names, rest)?;
        rest = after;
        if !more {
            return Ok((names, rest));
        }
    }
    let rest = no_name(rest)?;
    Ok((names, rest))
}

// The header of a file of the wanted kind.
#[tactic(auto, unfolding(trop_grammar::specs::Reading::read_then, trop_grammar::specs::Reading::gives, crate::specs::Header::header_at))]
pub(crate) fn read_header<'a>(
    alloc: Global,
    at: Pieces<'a>,
    wanted: FileKind,
) -> Result<(Header, Pieces<'a>), ReadErr<'a>>
    ensures gives { Gives (λ x. (header_of x.0, pieces_left x.1)) result
        (spec.header_at (word_of wanted) (pieces_left at.entry)) }
    ensures count { IfOk result (λ x. length x.0.names ≤ 63) }
{
    let rest = kind_line(at, wanted)?;
    let (ring, rest) = semiring_line(rest)?;
    let (vars_line, rest) = vars(rest)?;
    let (names, rest) = read_names(alloc, rest)?;
    let header = Header {
        ring,
        names,
        vars_line,
    };
    Ok((header, rest))
}
