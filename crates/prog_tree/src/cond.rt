//! Conditions.

ghost use Rattle.std.specs.Prelude.{◌≡◌, IfOk};
ghost use Rattle.prog_theory.specs.Conditions as tree;
ghost use Rattle.prog_tree.specs.Terms.{term_of, cmp_of};

use crate::NoMemory;
use crate::term::{Cmp, Term};
use std::alloc::Global;
use std::marker::Model;

/// A condition, which contracts see as its tree.
#[cycle(cond)]
#[derive(Drop)]
pub struct Cond {
    /// Its outermost form, with the conditions that it is made of.
    pub shape: CondShape,
}

/// The outermost form of a condition.
#[cycle(cond)]
#[derive(Drop)]
pub enum CondShape {
    /// `?`: true or false, each time it is looked at.
    Any,
    /// A comparison of two terms.
    Atom { left: Term, cmp: Cmp, right: Term },
    /// `!`
    Not(Box<Cond>),
    /// `&&`
    And(Box<Cond>, Box<Cond>),
    /// `||`
    Or(Box<Cond>, Box<Cond>),
}

impl Model for Cond {
    ghost use Rattle.prog_theory.specs.Conditions as tree;

    ghost Value = { tree.Cond };

    ghost use Rattle.prog_tree.specs.Codes.{coded_cond};

    ghost coded = { coded_cond };

    ghost use Rattle.prog_tree.specs.Conds.{cond_of, cond_size};

    ghost view = { λ a. cond_of a.shape };

    ghost size = { cond_size };

    ghost use Rattle.std.proofs.Common.{arith};

    ghost size_decreases = { λ a h. Prim.grind arith };
}

impl Cond {
    /// The condition `?`.
    pub fn any() -> Cond
        ensures { result ≡ tree.Any }
    {
        Cond {
            shape: CondShape::Any,
        }
    }

    /// A comparison.
    pub fn atom(left: Term, cmp: Cmp, right: Term) -> Cond
        ensures { result ≡ tree.Atom (term_of left) (cmp_of cmp) (term_of right) }
    {
        Cond {
            shape: CondShape::Atom { left, cmp, right },
        }
    }

    /// The condition that is true where this one is false.
    pub fn not(alloc: Global, cond: Cond) -> Result<Cond, NoMemory>
        ensures { IfOk result (λ c. c ≡ tree.Not cond) }
    {
        Ok(Cond {
            shape: CondShape::Not(Box::new(alloc, cond)?),
        })
    }

    /// The condition that is true where both are.
    pub fn and(alloc: Global, left: Cond, right: Cond) -> Result<Cond, NoMemory>
        ensures { IfOk result (λ c. c ≡ tree.And left right) }
    {
        Ok(Cond {
            shape: CondShape::And(Box::new(alloc, left)?, Box::new(alloc, right)?),
        })
    }

    /// The condition that is true where one of both is.
    pub fn or(alloc: Global, left: Cond, right: Cond) -> Result<Cond, NoMemory>
        ensures { IfOk result (λ c. c ≡ tree.Or left right) }
    {
        Ok(Cond {
            shape: CondShape::Or(Box::new(alloc, left)?, Box::new(alloc, right)?),
        })
    }
}
