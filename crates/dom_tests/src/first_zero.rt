//! A domain of three values.
ghost use Rattle.std.specs.Prelude.{◌≡◌, ◌==◌};
ghost use Rattle.prog_tree.specs.Terms.{term_of};
ghost use Rattle.prog_graph.specs.Views.{op_of};
ghost use Rattle.dom_tests.specs.Zero.{rank, is_nought, set_known, image_of, join_of};

use crate::known::Known;
use dom_core::{DomErr, Domain};
use prog_graph::Op;
use prog_tree::{Claim, Term};
use std::alloc::Global;

/// The states of so many variables in which what is known of the first variable is true. No call is refused.
#[derive(Clone, Copy, Drop)]
pub struct FirstZero {
    vars: u32,
    known: Known,
}

impl FirstZero {
    /// What is known of the first variable.
    pub fn known(&self) -> Known
        ensures { result ≡ self.now.known }
    {
        self.known
    }
}

// How much may be.
fn rank_of(known: Known) -> u64
    ensures { result ≡ rank known }
{
    match known {
        Known::Nothing => 0,
        Known::Zero => 1,
        Known::Anything => 2,
    }
}

// Whether the term is the number 0.
fn nought(term: &Term) -> bool
    ensures { result ≡ is_nought (term_of term.now) }
{
    term.coord == 0 && term.add == 0
}

// What is known where the number has become zero, or any.
fn set(known: Known, nought: bool) -> Known
    ensures { result ≡ set_known nought known }
{
    match known {
        Known::Nothing => Known::Nothing,
        Known::Zero | Known::Anything => { if nought { Known::Zero } else { Known::Anything } }
    }
}

// What is known behind the operation.
fn image(op: &Op, known: Known) -> Known
    ensures { result ≡ image_of (op_of op.now) known }
{
    match op {
        Op::Skip | Op::Guard { .. } => known,
        Op::Set { var, value } => {
            if *var == 1 {
                set(known, nought(value))
            } else {
                known
            }
        }
        Op::Havoc { var } => { if *var == 1 { set(known, false) } else { known } }
    }
}

// What is known of either.
fn either(a: Known, b: Known) -> Known
    ensures { result ≡ join_of a b }
{
    if rank_of(a) <= rank_of(b) { b } else { a }
}

impl Domain for FirstZero {
    ghost use Rattle.dom_tests.specs.Zero.{first_zero, judges, is_proven};
    ghost use Rattle.dom_tests.specs.Laws.{zero_laws};

    ghost relations = { first_zero };

    ghost MAX_VARS = { 63 };

    ghost suits = { judges };

    ghost proven = { is_proven };

    ghost laws = { zero_laws 63 };

    const MAX_VARS: u32 = 63;

    fn bottom(_alloc: Global, vars: u32) -> Result<Self, DomErr> {
        Ok(FirstZero {
            vars,
            known: Known::Nothing,
        })
    }

    fn top(_alloc: Global, vars: u32) -> Result<Self, DomErr> {
        Ok(FirstZero {
            vars,
            known: Known::Anything,
        })
    }

    fn copy(&self, _alloc: Global) -> Result<Self, DomErr> {
        Ok(*self)
    }

    fn is_bottom(&self) -> bool {
        rank_of(self.known) == 0
    }

    fn apply(&self, _alloc: Global, op: &Op) -> Result<Self, DomErr> {
        Ok(FirstZero {
            vars: self.vars,
            known: image(op, self.known),
        })
    }

    fn join(&self, _alloc: Global, other: &Self) -> Result<Self, DomErr> {
        Ok(FirstZero {
            vars: self.vars,
            known: either(self.known, other.known),
        })
    }

    fn included(&self, other: &Self) -> bool {
        rank_of(self.known) <= rank_of(other.known)
    }

    fn widen(&self, _alloc: Global, _next: &Self) -> Result<Self, DomErr> {
        Ok(FirstZero {
            vars: self.vars,
            known: Known::Anything,
        })
    }

    fn width(&self) -> u64 {
        2 - rank_of(self.known)
    }

    fn max_width(_vars: u32) -> u64 {
        2
    }

    fn proves(&self, _claim: &Claim) -> bool {
        rank_of(self.known) == 0
    }
}
