//! The edges of a condition.

ghost use Rattle.std.specs.Prelude.{◌≡◌, ◌++◌, ◌+◌, ◌<◌, ◌^◌, map, OnOk, IfOk};
ghost use Rattle.prog_theory.specs.Edges.{test_edges};
ghost use Rattle.prog_theory.specs.Each.{EachTerm};
ghost use Rattle.prog_theory.specs.Tests as tests;
ghost use Rattle.prog_theory.specs.Tests.{test, inner};
ghost use Rattle.prog_tree.specs.Terms.{term_of, cmp_of};
ghost use Rattle.prog_graph.specs.Views.{edge_of};
ghost use Rattle.prog_graph.specs.Modest.{IsModest};

use crate::NoMemory;
use crate::parts::{Edge, Op, push_edge};
use crate::width::inner_points;
use prog_tree::{Cmp, Cond, CondShape, Term};

/// The term with one more.
fn above(t: Term) -> Term
    requires { IsModest (term_of t) }
    ensures { term_of result ≡ tests.above (term_of t) }
{
    Term {
        coord: t.coord,
        add: t.add + 1,
    }
}

/// The edges of a guard: where it is true, then where it is false.
fn guard_edges(
    out: &mut Vec<Edge>,
    from: u32,
    left: Term,
    right: Term,
    hit: Option<u32>,
    miss: Option<u32>,
) -> Result<(), NoMemory>
    requires { IsModest (term_of right) }
    ensures { OnOk result (map edge_of out.new.items ≡ map edge_of out.old.items ++ test_edges
        (tests.Guard (term_of left) (term_of right)) from 0 hit miss) }
{
    push_edge(out, from, hit, Op::Guard { left, right })?;
    push_edge(
        out,
        from,
        miss,
        Op::Guard {
            left: above(right),
            right: left,
        },
    )
}

/// The edges of an equation, with the inner point `own`.
fn equal_edges(
    out: &mut Vec<Edge>,
    from: u32,
    own: u32,
    left: Term,
    right: Term,
    hit: Option<u32>,
    miss: Option<u32>,
) -> Result<(), NoMemory>
    requires left_modest { IsModest (term_of left) }
    requires right_modest { IsModest (term_of right) }
    ensures { OnOk result (map edge_of out.new.items ≡ map edge_of out.old.items ++ test_edges
        (tests.Both (tests.Guard (term_of left) (term_of right)) (tests.Guard (term_of right) (term_of left))) from own
        hit miss) }
{
    guard_edges(out, from, left, right, Some(own), miss)?;
    guard_edges(out, own, right, left, hit, miss)
}

/// The edges of a comparison.
fn atom_edges(
    out: &mut Vec<Edge>,
    from: u32,
    own: u32,
    left: Term,
    cmp: Cmp,
    right: Term,
    hit: Option<u32>,
    miss: Option<u32>,
) -> Result<(), NoMemory>
    requires left_modest { IsModest (term_of left) }
    requires right_modest { IsModest (term_of right) }
    ensures { OnOk result (map edge_of out.new.items ≡ map edge_of out.old.items ++ test_edges
        (tests.comparison (cmp_of cmp) (term_of left) (term_of right)) from own hit miss) }
{
    match cmp {
        Cmp::Le => guard_edges(out, from, left, right, hit, miss),
        Cmp::Lt => guard_edges(out, from, above(left), right, hit, miss),
        Cmp::Ge => guard_edges(out, from, right, left, hit, miss),
        Cmp::Gt => guard_edges(out, from, above(right), left, hit, miss),
        Cmp::Eq => equal_edges(out, from, own, left, right, hit, miss),
        Cmp::Ne => equal_edges(out, from, own, left, right, miss, hit),
    }
}

/// The edges of a condition from `from` to its targets, whose inner points begin at `own`; the point after these.
pub(crate) fn cond_edges(
    out: &mut Vec<Edge>,
    cond: &Cond,
    from: u32,
    own: u32,
    hit: Option<u32>,
    miss: Option<u32>,
) -> Result<u32, NoMemory>
    requires modest { EachTerm IsModest cond.now }
    requires fits { own + inner (test cond.now) < 2 ^ 32 }
    ensures edges { OnOk result (map edge_of out.new.items ≡ map edge_of out.old.items ++ test_edges (test cond.now)
        from own hit miss) }
    ensures next { IfOk result (λ after. after ≡ own + inner (test cond.now)) }
{
    match &cond.shape {
        CondShape::Any => {
            push_edge(out, from, hit, Op::Skip)?;
            push_edge(out, from, miss, Op::Skip)?;
            Ok(own)
        }
        CondShape::Atom { left, cmp, right } => {
            atom_edges(out, from, own, *left, *cmp, *right, hit, miss)?;
            Ok(own + inner_points(cond))
        }
        CondShape::Not(a) => cond_edges(out, a, from, own, miss, hit),
        CondShape::And(a, b) => {
            let mid = own + inner_points(a);
            cond_edges(out, a, from, own, Some(mid), miss)?;
            cond_edges(out, b, mid, mid + 1, hit, miss)
        }
        CondShape::Or(a, b) => {
            let mid = own + inner_points(a);
            cond_edges(out, a, from, own, hit, Some(mid))?;
            cond_edges(out, b, mid, mid + 1, hit, miss)
        }
    }
}
