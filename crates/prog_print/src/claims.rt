//! Claims.
ghost use Rattle.std.specs.Prelude.{◌≡◌, ◌++◌, All, map, length, codes, OnOk};
ghost use Rattle.prog_theory.specs.Fits.{FitsTerm};
ghost use Rattle.prog_tree.specs.Terms.{term_of};
ghost use Rattle.prog_tree.specs.Words.{rel_of};
ghost use Rattle.prog_tree.specs.Claims.{claim_of};
ghost use Rattle.prog_texts.specs.Printed as printed;
ghost use Rattle.prog_print.specs.Texts.{more_text, terms_text, side_text, claim_text};

use crate::NoMemory;
use crate::terms::push_term;
use prog_tree::{Claim, Rel, Side, SideWord, Term};
use trop_text::Names;

// The sign between the sides of a claim.
fn rel_text(rel: Rel) -> &'static [u8]
    ensures { result.now ≡ printed.rel_text (rel_of rel) }
{
    match rel {
        Rel::Le => b"<=",
        Rel::Ge => b">=",
        Rel::Same => b"=",
    }
}

// Each term behind a comma.
fn push_more_terms(text: &mut Vec<u8>, names: &Names, terms: &[Term]) -> Result<(), NoMemory>
    requires { All (λ t. FitsTerm (length names.now) (term_of t)) terms.now }
    ensures { OnOk result (text.new.items ≡ text.old.items ++ more_text names.now (map term_of terms.now)) }
{
    for term in terms {
        text.extend_from_slice(b", ")?;
        push_term(text, names, *term)?;
    }
    Ok(())
}

fn push_terms(text: &mut Vec<u8>, names: &Names, terms: &[Term]) -> Result<(), NoMemory>
    requires { All (λ t. FitsTerm (length names.now) (term_of t)) terms.now }
    ensures { OnOk result (text.new.items ≡ text.old.items ++ terms_text names.now (map term_of terms.now)) }
{
    let [first, rest @ ..] = terms else {
        return Ok(());
    };
    push_term(text, names, *first)?;
    push_more_terms(text, names, rest)
}

// The terms in parentheses behind a word.
fn push_listed(
    text: &mut Vec<u8>,
    names: &Names,
    word: &[u8],
    terms: &[Term],
) -> Result<(), NoMemory>
    requires { All (λ t. FitsTerm (length names.now) (term_of t)) terms.now }
    ensures { OnOk result (text.new.items ≡ text.old.items
        ++ (word.now ++ (terms_text names.now (map term_of terms.now) ++ codes ")"))) }
{
    text.extend_from_slice(word)?;
    push_terms(text, names, terms)?;
    text.extend_from_slice(b")")
}

fn push_side(text: &mut Vec<u8>, names: &Names, side: &Side) -> Result<(), NoMemory>
    requires { All (FitsTerm (length names.now)) side.now.terms }
    ensures { OnOk result (text.new.items ≡ text.old.items ++ side_text names.now side.now.word side.now.terms) }
{
    let terms = side.terms().as_slice();
    match side.word() {
        SideWord::One => push_terms(text, names, terms),
        SideWord::Max => push_listed(text, names, b"max(", terms),
        SideWord::Min => push_listed(text, names, b"min(", terms),
    }
}

/// Appends a claim.
pub(crate) fn push_claim(text: &mut Vec<u8>, names: &Names, claim: &Claim) -> Result<(), NoMemory>
    requires left { All (FitsTerm (length names.now)) claim.now.left.terms }
    requires right { All (FitsTerm (length names.now)) claim.now.right.terms }
    ensures { OnOk result (text.new.items ≡ text.old.items ++ claim_text names.now (claim_of claim.now)) }
{
    push_side(text, names, &claim.left)?;
    text.push(b' ')?;
    text.extend_from_slice(rel_text(claim.rel))?;
    text.push(b' ')?;
    push_side(text, names, &claim.right)
}
