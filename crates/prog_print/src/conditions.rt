//! Conditions.
ghost use Rattle.std.specs.Prelude.{◌≡◌, ◌++◌, length, OnOk};
ghost use Rattle.prog_theory.specs.Conditions as tree;
ghost use Rattle.prog_theory.specs.Fits.{FitsTerm, FitsCond};
ghost use Rattle.prog_theory.specs.Nesting as nesting;
ghost use Rattle.prog_tree.specs.Terms.{term_of, cmp_of};
ghost use Rattle.prog_texts.specs.Printed as printed;
ghost use Rattle.prog_print.specs.Levels.{level_of};
ghost use Rattle.prog_print.specs.Texts.{where_so, cond_text};

use crate::NoMemory;
use crate::terms::push_term;
use prog_tree::{Cmp, Cond, CondShape, Term};
use trop_text::Names;

/// Where a condition stands, by which it is decided whether it is printed in parentheses.
#[derive(Clone, Copy, Drop)]
pub(crate) enum Level {
    /// Alone or left of `||`, where nothing takes parentheses.
    Loose,
    /// Right of `||` or left of `&&`, where `||` takes them.
    Tight,
    /// Right of `&&` or behind `!`, where `&&` takes them too.
    Single,
}

impl Level {
    // Whether `&&` takes parentheses.
    fn is_single(self) -> bool
        ensures { result ≡ nesting.is_single (level_of self) }
    {
        match self {
            Level::Loose | Level::Tight => false,
            Level::Single => true,
        }
    }

    // Whether `||` takes parentheses.
    fn is_not_loose(self) -> bool
        ensures { result ≡ nesting.not_loose (level_of self) }
    {
        match self {
            Level::Loose => false,
            Level::Tight | Level::Single => true,
        }
    }
}

// The sign of a comparison.
fn cmp_text(cmp: Cmp) -> &'static [u8]
    ensures { result.now ≡ printed.cmp_text (cmp_of cmp) }
{
    match cmp {
        Cmp::Le => b"<=",
        Cmp::Lt => b"<",
        Cmp::Ge => b">=",
        Cmp::Gt => b">",
        Cmp::Eq => b"==",
        Cmp::Ne => b"!=",
    }
}

// A sign, where it is asked for.
fn push_where(text: &mut Vec<u8>, asked: bool, sign: &[u8]) -> Result<(), NoMemory>
    ensures { OnOk result (text.new.items ≡ text.old.items ++ where_so asked sign.now) }
{
    if asked {
        return text.extend_from_slice(sign);
    }
    Ok(())
}

// A comparison of two terms.
fn push_atom(
    text: &mut Vec<u8>,
    names: &Names,
    left: Term,
    cmp: Cmp,
    right: Term,
) -> Result<(), NoMemory>
    requires left { FitsTerm (length names.now) (term_of left) }
    requires right { FitsTerm (length names.now) (term_of right) }
    ensures { OnOk result (text.new.items ≡ text.old.items
        ++ cond_text names.now nesting.Loose (tree.Atom (term_of left) (cmp_of cmp) (term_of right))) }
{
    push_term(text, names, left)?;
    text.push(b' ')?;
    text.extend_from_slice(cmp_text(cmp))?;
    text.push(b' ')?;
    push_term(text, names, right)
}

/// Appends a condition, in parentheses where they are needed.
pub(crate) fn push_cond(
    text: &mut Vec<u8>,
    names: &Names,
    level: Level,
    cond: &Cond,
) -> Result<(), NoMemory>
    requires { FitsCond (length names.now) cond.now }
    ensures { OnOk result (text.new.items ≡ text.old.items ++ cond_text names.now (level_of level) cond.now) }
{
    match &cond.shape {
        CondShape::Any => text.extend_from_slice(b"?"),
        CondShape::Atom { left, cmp, right } => push_atom(text, names, *left, *cmp, *right),
        CondShape::Not(a) => {
            text.push(b'!')?;
            push_cond(text, names, Level::Single, a)
        }
        CondShape::And(a, b) => {
            push_where(text, level.is_single(), b"(")?;
            push_cond(text, names, Level::Tight, a)?;
            text.extend_from_slice(b" && ")?;
            push_cond(text, names, Level::Single, b)?;
            push_where(text, level.is_single(), b")")
        }
        CondShape::Or(a, b) => {
            push_where(text, level.is_not_loose(), b"(")?;
            push_cond(text, names, Level::Loose, a)?;
            text.extend_from_slice(b" || ")?;
            push_cond(text, names, Level::Tight, b)?;
            push_where(text, level.is_not_loose(), b")")
        }
    }
}
