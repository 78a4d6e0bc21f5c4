//! How many points conditions, statements and blocks have.

ghost use Rattle.std.specs.Prelude.{◌≡◌, ◌<◌, ◌^◌};
ghost use Rattle.prog_theory.specs.Tests.{test, inner};
ghost use Rattle.prog_theory.specs.Places.{width, widths};
ghost use Rattle.prog_tree.specs.Stmts.{stmt_of};

use prog_tree::{Block, Cmp, Cond, CondShape, Stmt};

/// The number of inner points of a condition.
pub(crate) fn inner_points(cond: &Cond) -> u32
    requires { inner (test cond.now) < 2 ^ 32 }
    ensures { result ≡ inner (test cond.now) }
{
    match &cond.shape {
        CondShape::Any => 0,
        CondShape::Atom {
            cmp: Cmp::Eq | Cmp::Ne,
            ..
        } => 1,
        CondShape::Atom { .. } => 0,
        CondShape::Not(a) => inner_points(a),
        CondShape::And(a, b) => inner_points(a) + 1 + inner_points(b),
        CondShape::Or(a, b) => inner_points(a) + 1 + inner_points(b),
    }
}

/// The number of points of a block.
#[cycle(width)]
pub(crate) fn block_width(block: &Block) -> u32
    requires { widths block.now < 2 ^ 32 }
    ensures { result ≡ widths block.now }
{
    let mut total = 0;
    for st in &block.stmts {
        total += stmt_width(st);
    }
    total
}

/// The number of points of a statement.
#[cycle(width)]
pub(crate) fn stmt_width(st: &Stmt) -> u32
    requires { width (stmt_of st.now) < 2 ^ 32 }
    ensures { result ≡ width (stmt_of st.now) }
{
    match st {
        Stmt::If(c, a, b) => 1 + inner_points(c) + block_width(a) + block_width(b),
        Stmt::While(c, a) => 1 + inner_points(c) + block_width(a),
        Stmt::Assume(c) => 1 + inner_points(c),
        _ => 1,
    }
}
