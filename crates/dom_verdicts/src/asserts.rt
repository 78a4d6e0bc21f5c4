//! The verdicts on the asserts of statements, of blocks, and of a program.
ghost use Rattle.std.specs.Prelude.{◌≡◌, ◌<◌, ◌≤◌, ◌+◌, ◌^◌, All, Some, length, slice_get, IfOk, OnOk};
ghost use Rattle.std.specs.List.{AllZip};
ghost use Rattle.prog_theory.specs.Each.{EachClaim, EachClaims};
ghost use Rattle.prog_theory.specs.Graph.{points};
ghost use Rattle.prog_theory.specs.Named.{nameless};
ghost use Rattle.prog_theory.specs.Places.{width, widths};
ghost use Rattle.prog_theory.specs.Tests.{test, inner};
ghost use Rattle.prog_theory.specs.Statements as tree;
ghost use Rattle.prog_tree.specs.Claims.{claim_of};
ghost use Rattle.prog_tree.specs.Stmts.{stmt_of};
ghost use Rattle.cone_reports.specs.Asserts.{asserts};
ghost use Rattle.dom_core.specs.Claims.{FitsClaim};
ghost use Rattle.dom_family.specs.Family.{value_in, IsJudgedBy};
ghost use Rattle.dom_verdicts.specs.Claims.{claims_st, claims_bl, IsJudgeable, IsVerdictOn, AreAdded, value_at};

use dom_core::Domain;
use prog_tree::{Block, Claim, Cmp, Cond, CondShape, Program, Stmt};
use std::alloc::{AllocError, Global};

// The number of inner points of a condition.
fn inner_points(cond: &Cond) -> u32
    requires { inner (test cond.now) < 2 ^ 32 }
    ensures { result ≡ inner (test cond.now) }
{
    match &cond.shape {
        CondShape::Any => 0,
        CondShape::Atom {
            cmp: Cmp::Eq | Cmp::Ne,
            ..
        } => 1,
        CondShape::Atom { .. } => 0,
        CondShape::Not(a) => inner_points(a),
        CondShape::And(a, b) => inner_points(a) + 1 + inner_points(b),
        CondShape::Or(a, b) => inner_points(a) + 1 + inner_points(b),
    }
}

// The value of a point.
fn value_of<D: Domain>(values: &[D], point: u32) -> &D
    requires { point < length values.now }
    ensures { slice_get values.now point ≡ Some result.now }
{
    &values[point as usize]
}

// The verdict on an assert at a point.
fn push_verdict<D: Domain>(
    out: &mut Vec<bool>,
    vars: u32,
    values: &[D],
    claim: &Claim,
    point: u32,
) -> Result<(), AllocError>
    requires inside { point < length values.now }
    requires vars { All (λ v. D.relations.vars v ≡ vars) values.now }
    requires judgeable { IsJudgeable D.suits vars (claim_of claim.now) }
    ensures { OnOk result (AreAdded (IsVerdictOn D.proven (value_at D.relations vars values.now))
        (claims_st point (tree.Assert (claim_of claim.now))) out.old.items out.new.items) }
{
    let proved = value_of(values, point).proves(claim);
    out.push(proved)?;
    Ok(())
}

// The verdicts on the asserts of a statement at a point; the point behind it.
#[cycle(verdicts)]
fn stmt_verdicts<D: Domain>(
    out: &mut Vec<bool>,
    vars: u32,
    values: &[D],
    st: &Stmt,
    point: u32,
) -> Result<u32, AllocError>
    requires few { length values.now ≤ 65536 }
    requires inside { point + width (stmt_of st.now) ≤ length values.now }
    requires vars { All (λ v. D.relations.vars v ≡ vars) values.now }
    requires judgeable { EachClaim (IsJudgeable D.suits vars) (stmt_of st.now) }
    ensures next { IfOk result (λ next. next ≡ point + width (stmt_of st.now)) }
    ensures added { OnOk result (AreAdded (IsVerdictOn D.proven (value_at D.relations vars values.now))
        (claims_st point (stmt_of st.now)) out.old.items out.new.items) }
{
    match st {
        Stmt::If(c, a, b) => {
            let behind = block_verdicts(out, vars, values, a, point + 1 + inner_points(c))?;
            block_verdicts(out, vars, values, b, behind)
        }
        Stmt::While(c, a) => block_verdicts(out, vars, values, a, point + 1 + inner_points(c)),
        Stmt::Assume(c) => Ok(point + 1 + inner_points(c)),
        Stmt::Assert(claim) => {
            push_verdict(out, vars, values, claim, point)?;
            Ok(point + 1)
        }
        Stmt::Set { .. } => Ok(point + 1),
        Stmt::Havoc { .. } => Ok(point + 1),
        Stmt::Skip => Ok(point + 1),
    }
}

// The verdicts on the asserts of a block that begins at a point; the point behind it.
#[cycle(verdicts)]
fn block_verdicts<D: Domain>(
    out: &mut Vec<bool>,
    vars: u32,
    values: &[D],
    block: &Block,
    point: u32,
) -> Result<u32, AllocError>
    requires few { length values.now ≤ 65536 }
    requires inside { point + widths block.now ≤ length values.now }
    requires vars { All (λ v. D.relations.vars v ≡ vars) values.now }
    requires judgeable { EachClaims (IsJudgeable D.suits vars) block.now }
    ensures next { IfOk result (λ next. next ≡ point + widths block.now) }
    ensures added { OnOk result (AreAdded (IsVerdictOn D.proven (value_at D.relations vars values.now))
        (claims_bl point block.now) out.old.items out.new.items) }
{
    let mut at = point;
    for st in &block.stmts {
        at = stmt_verdicts(out, vars, values, st, at)?;
    }
    Ok(at)
}

/// Whether each assert of the program is proved by the value of its point, in the order of asserts: the values are those
/// of the points of its control graph, by their numbers.
///
/// Errors: want of memory.
pub fn verdicts<D: Domain>(
    alloc: Global,
    program: &Program,
    values: &[D],
) -> Result<Vec<bool>, AllocError>
    requires points { length values.now ≡ length (points (nameless program.now)) }
    requires vars { All (λ v. D.relations.vars v ≡ length program.now.names) values.now }
    requires suits { EachClaims D.suits program.now.body }
    ensures { IfOk result (λ out. AllZip (IsJudgedBy D.proven (value_in D.relations program.now values.now))
        (asserts (nameless program.now)) out.items) }
{
    let mut out = Vec::new(alloc);
    block_verdicts(&mut out, program.vars(), values, program.body(), 0)?;
    Ok(out)
}
