//! The trait of domains.
ghost use Rattle.std.specs.Prelude.{◌≡◌, ◌+◌, ◌^◌, ◌≤◌, ◌↔◌, ℕ, IsTrue};
ghost use Rattle.prog_theory.specs.Statements as program;
ghost use Rattle.prog_theory.specs.Each.{EachOp};
ghost use Rattle.prog_theory.specs.Fits.{FitsOp};
ghost use Rattle.prog_theory.specs.Within.{IsNumberWithin};
ghost use Rattle.prog_tree.specs.Claims.{claim_of};
ghost use Rattle.prog_graph.specs.Views.{op_of};
ghost use Rattle.dom_theory.specs.Relations.{Relations, Apply, Join, Widen};
ghost use Rattle.dom_theory.specs.Laws.{DomainLaws};
ghost use Rattle.dom_core.specs.Answers.{IsAnswer, IsMade};
ghost use Rattle.dom_core.specs.Claims.{FitsClaim};

use crate::error::DomErr;
use prog_graph::Op;
use prog_tree::Claim;
use std::alloc::Global;

/// Values that stand for sets of states of a number of variables, with the operations of an analysis. An operation may
/// be refused; the relations say what each gives, and which calls are refused in which part.
///
/// To write a domain, give its `relations` (`dom_theory/specs/Relations`) by definitions of its own, show `laws`, and
/// meet the clauses: `analyse` then gives the end of the analysis by these relations, or its first refusal. The values
/// without states and with all of them, `bottom` and `top`, are never refused but for want of memory.
pub trait Domain: Drop {
    /// What the values are and what the operations give.
    ghost relations: { Relations Self };

    /// How many variables a value may have.
    ghost MAX_VARS: { ℕ };

    /// Whether the claims of an assert are judged, by their words.
    ghost suits: { program.Claim → Type 0 };

    /// Whether a claim is proved by a value.
    ghost proven: { program.Claim → Self → Type 0 };

    /// How many variables a value may have.
    const MAX_VARS: u32;

    /// The value without states.
    fn bottom(alloc: Global, vars: u32) -> Result<Self, DomErr>
        requires { vars ≤ MAX_VARS }
        ensures { IsMade (relations.bottom vars) result };

    /// The value with all states.
    fn top(alloc: Global, vars: u32) -> Result<Self, DomErr>
        requires { vars ≤ MAX_VARS }
        ensures { IsMade (relations.top vars) result };

    /// The same value.
    fn copy(&self, alloc: Global) -> Result<Self, DomErr>
        ensures { IsMade self.now result };

    /// Whether it is the value without states.
    fn is_bottom(&self) -> bool
        ensures { IsTrue result ↔ (self.now ≡ relations.bottom (relations.vars self.now)) };

    /// The image by an operation: it has each state to which the operation leads from a state of this value (a law).
    /// Errors: exactly what `refused` says of it, as a whole; want of memory.
    fn apply(&self, alloc: Global, op: &Op) -> Result<Self, DomErr>
        requires fits { FitsOp (relations.vars self.now) (op_of op.now) }
        requires numbers { EachOp (λ x. Unit {0}) (IsNumberWithin (2 ^ 31 + 1)) (op_of op.now) }
        ensures { IsAnswer relations (Apply (op_of op.now) self.now) result };

    /// A value with the states of both (a law). Errors: exactly what `refused` says of it, as a whole; want of memory.
    fn join(&self, alloc: Global, other: &Self) -> Result<Self, DomErr>
        requires { relations.vars self.now ≡ relations.vars other.now }
        ensures { IsAnswer relations (Join self.now other.now) result };

    /// Whether this value lies in the other: then each state of it is one of the other (a law).
    fn included(&self, other: &Self) -> bool
        requires { relations.vars self.now ≡ relations.vars other.now }
        ensures { IsTrue result ↔ relations.within self.now other.now };

    /// What this value becomes where the next one leaves it: a value of less width (a law), so that an analysis ends.
    /// No law says which states it has: an analysis goes on until each head has all that comes to it. Errors: exactly
    /// what `refused` says of it, with the part of it, which is never the whole; want of memory.
    fn widen(&self, alloc: Global, next: &Self) -> Result<Self, DomErr>
        requires vars { relations.vars self.now ≡ relations.vars next.now }
        requires leaves { ¬ relations.within next.now self.now }
        requires more { ¬ self.now ≡ relations.bottom (relations.vars self.now) }
        ensures { IsAnswer relations (Widen self.now next.now) result };

    /// A number that falls with each widening.
    fn width(&self) -> u64
        ensures { result ≡ relations.width self.now };

    /// The greatest width of a value of so many variables.
    fn max_width(vars: u32) -> u64
        requires { vars ≤ MAX_VARS }
        ensures { result ≡ relations.max_width vars };

    /// Whether the value proves the claim; that the claim is then true at each state is no law of this trait (see
    /// `ClaimLaws` in `dom_family`).
    fn proves(&self, claim: &Claim) -> bool
        requires suits { suits (claim_of claim.now) }
        requires fits { FitsClaim (relations.vars self.now) (claim_of claim.now) }
        ensures { IsTrue result ↔ proven (claim_of claim.now) self.now };

    /// What every domain keeps.
    ghost laws: { DomainLaws relations MAX_VARS };
}
