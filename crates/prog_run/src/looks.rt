//! Looks at conditions.

ghost use Rattle.std.specs.Prelude.{◌≡◌, ◌≤◌, ◌^◌, length};
ghost use Rattle.prog_theory.specs.States as states;
ghost use Rattle.prog_theory.specs.Looks as looks;
ghost use Rattle.prog_theory.specs.Fits.{FitsTerm};
ghost use Rattle.prog_theory.specs.Within.{IsNumberWithin};
ghost use Rattle.prog_tree.specs.Terms.{term_of, cmp_of};
ghost use Rattle.prog_run.specs.Ready.{AreWithin, IsReadyCond};
ghost use Rattle.prog_run.specs.Views.{IsSeen};

use prog_tree::{Cmp, Cond, CondShape, Term};

/// The truth value of a condition, and the choices that are left.
#[derive(Clone, Copy)]
pub(crate) struct Seen<'a> {
    pub(crate) truth: bool,
    pub(crate) left: &'a [i64],
}

// The number at a coordinate of a state.
#[tactic(auto, using(crate::proofs::Values::coordinate_at))]
fn coordinate(state: &[i64], coord: u32) -> i64
    requires { coord ≤ length state.now }
    ensures { result ≡ states.coordinate state.now coord }
{
    if coord == 0 {
        return 0;
    }
    state[coord as usize - 1]
}

/// The value of a term at a state.
pub(crate) fn value(term: Term, state: &[i64]) -> i64
    requires fits { FitsTerm (length state.now) (term_of term) }
    requires small { IsNumberWithin (2 ^ 31) (term_of term) }
    requires within { AreWithin (2 ^ 62) state.now }
    ensures { result ≡ states.value (term_of term) state.now }
{
    coordinate(state, term.coord) + term.add
}

// Whether the comparison holds.
fn compares(cmp: Cmp, left: i64, right: i64) -> bool
    ensures { result ≡ looks.compares (cmp_of cmp) left right }
{
    match cmp {
        Cmp::Le => left <= right,
        Cmp::Lt => left < right,
        Cmp::Ge => left >= right,
        Cmp::Gt => left > right,
        Cmp::Eq => left <= right && right <= left,
        Cmp::Ne => !(left <= right && right <= left),
    }
}

// A look at `?`.
fn look_any(choices: &[i64]) -> Option<Seen<'_>>
    ensures { IsSeen (looks.look_any choices.now) result }
{
    let (choice, left) = choices.split_first()?;
    Some(Seen {
        truth: *choice != 0,
        left,
    })
}

/// A look at a condition; none where it needs a choice and none is left.
pub(crate) fn look<'a>(cond: &Cond, state: &[i64], choices: &'a [i64]) -> Option<Seen<'a>>
    requires ready { IsReadyCond (length state.now) cond.now }
    requires within { AreWithin (2 ^ 62) state.now }
    ensures { IsSeen (looks.look cond.now state.now choices.now) result }
{
    match &cond.shape {
        CondShape::Any => look_any(choices),
        CondShape::Atom { left, cmp, right } => Some(Seen {
            truth: compares(*cmp, value(*left, state), value(*right, state)),
            left: choices,
        }),
        CondShape::Not(a) => {
            let seen = look(a, state, choices)?;
            Some(Seen {
                truth: !seen.truth,
                left: seen.left,
            })
        }
        CondShape::And(a, b) => {
            let seen = look(a, state, choices)?;
            if !seen.truth {
                return Some(seen);
            }
            look(b, state, seen.left)
        }
        CondShape::Or(a, b) => {
            let seen = look(a, state, choices)?;
            if seen.truth {
                return Some(seen);
            }
            look(b, state, seen.left)
        }
    }
}
