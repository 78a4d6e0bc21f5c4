//! The opposites of coordinates and terms.
ghost use Rattle.std.specs.Prelude.{◌≡◌, ◌≤◌, ◌^◌, ◌+◌};
ghost use Rattle.prog_theory.specs.Within.{IsNumberWithin};
ghost use Rattle.prog_tree.specs.Terms.{term_of};
ghost use Rattle.mixed_theory.specs.Twins as twins;

use prog_tree::Term;

/// The coordinate with the opposite of this one, among so many variables: coordinate 0 is its own, and that of variable
/// `i` lies as far behind it as there are variables.
pub fn opposite(vars: u32, coord: u32) -> u32
    requires few { vars ≤ 31 }
    requires fits { coord ≤ vars }
    ensures { result ≡ twins.opposite vars coord }
{
    if coord == 0 { 0 } else { vars + coord }
}

/// The term whose value is the opposite of this one's.
pub fn opposite_term(vars: u32, term: &Term) -> Term
    requires few { vars ≤ 31 }
    requires fits { term.now.coord ≤ vars }
    requires number { IsNumberWithin (2 ^ 31 + 1) (term_of term.now) }
    ensures { term_of result ≡ twins.opposite_term vars (term_of term.now) }
{
    Term {
        coord: opposite(vars, term.coord),
        add: -term.add,
    }
}
