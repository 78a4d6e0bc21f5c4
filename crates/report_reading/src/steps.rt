//! Steps along pieces.
ghost use Rattle.std.specs.Prelude.{◌≡◌, drop, length};
ghost use Rattle.trop_text.specs.Pieces.{pieces_left};
ghost use Rattle.report_texts.specs.Heads.{from_last};

use trop_text::Pieces;

// The place behind the next piece, if there is one.
fn stepped(at: Pieces<'_>) -> Pieces<'_>
    ensures { pieces_left result ≡ drop 1 (pieces_left at.entry) }
{
    match at.next() {
        Some((_, rest)) => rest,
        None => at,
    }
}

// The place that is behind `at` by as many pieces as are left at `other`.
fn ahead<'a>(at: Pieces<'a>, other: Pieces<'_>) -> Pieces<'a>
    ensures { pieces_left result ≡ drop (length (pieces_left other.entry)) (pieces_left at.entry) }
{
    let mut here = at;
    let mut left = other;
    'pieces: while let Some((_, rest)) = left.next() {
        left = rest;
        here = stepped(here);
    }
    here
}

// The last place before `rest`, which is behind `at` in the same text: of the places behind `at`, the one that is so far
// from the end as `rest` is, and one piece more. It is asked for once, at the fault of a line whose reader tells no more
// than what stands behind the line.
#[tactic(auto, using(crate::proofs::LastPlaces::last_is))]
pub(crate) fn line_last<'a>(at: Pieces<'a>, rest: Pieces<'a>) -> Pieces<'a>
    ensures { pieces_left result ≡ from_last (pieces_left at.entry) (pieces_left rest.entry) }
{
    let taken = ahead(at, rest);
    ahead(at, stepped(taken))
}
