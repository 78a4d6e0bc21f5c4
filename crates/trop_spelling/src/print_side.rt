//! Sides and inequalities as they are printed.
ghost use Rattle.std.specs.Prelude.{◌≡◌, ◌+◌, ◌<◌, ◌≤◌, ◌^◌, ◌++◌, ℕ, [], length, codes, count_by, is_some, OnOk, IfOk, Some, if◌then◌else◌};
ghost use Rattle.trop_theory.specs.Inequalities.{inequality_size};
ghost use Rattle.trop_spelling.specs.Inequalities.{IsInequality};
ghost use Rattle.trop_reading.specs.InLines.{IsOnlyLine};
ghost use Rattle.trop_spelling.specs.Spelling.{order_word, sum_word};
ghost use Rattle.trop_spelling.specs.Printed.{numbers, shift_text, term_text, terms_from, comma_list, printed_side, printed_inequality};

use crate::{NoMemory, Spelling};
use itoa::Buffer;
use std::alloc::Global;
use trop_row::Ineq;
use trop_text::Names;

/// The inequality as it is printed, in the variables with these names. It is read back as it is, under each bound on
/// sizes that it keeps.
pub fn ineq_text<S: Spelling>(
    alloc: Global,
    names: &Names,
    ineq: &Ineq<S>,
) -> Result<Vec<u8>, NoMemory>
    requires { length ineq.now.left ≡ length names.now + 1 }
    ensures text { IfOk result (λ text. text.items ≡ printed_inequality S.KIND S.numbering names.now ineq.now) }
    ensures read_back { (bound : ℕ) → bound ≤ 2 ^ 48 → inequality_size S.ring ineq.now ≤ bound →
        IfOk result (λ text. IsOnlyLine (IsInequality S.KIND S.ring S.numbering bound names.now) text.items ineq.now) }
{
    prove!(names.len() + 1 == ineq.right().len());
    let mut text = Vec::new(alloc);
    push_inequality(&mut text, names, ineq)?;
    Ok(text)
}

/// Appends the inequality as it is printed, in the variables with these names.
pub fn push_inequality<S: Spelling>(
    text: &mut Vec<u8>,
    names: &Names,
    ineq: &Ineq<S>,
) -> Result<(), NoMemory>
    requires { length ineq.now.left ≡ length names.now + 1 }
    ensures { OnOk result (text.new.items ≡ text.old.items ++ printed_inequality S.KIND S.numbering names.now ineq.now) }
{
    push_side(text, names, ineq.left().as_slice())?;
    text.push(b' ')?;
    text.extend_from_slice(S::order_word())?;
    text.push(b' ')?;
    push_side(text, names, ineq.right().as_slice())
}

fn push_side<S: Spelling>(text: &mut Vec<u8>, names: &Names, side: &[S]) -> Result<(), NoMemory>
    requires names { length side.now ≡ length names.now + 1 }
    requires width { length side.now ≤ 64 }
    ensures { OnOk result (text.new.items ≡ text.old.items ++ printed_side S.KIND names.now
        (numbers S.numbering side.now)) }
{
    let count = count_terms(side);
    if count == 0 {
        return S::zero().push_element(text);
    }
    if count == 1 {
        return push_terms(text, names, side);
    }
    text.extend_from_slice(S::sum_word())?;
    text.push(b'(')?;
    push_terms(text, names, side)?;
    text.push(b')')?;
    Ok(())
}

// How many coefficients are finite.
fn count_terms<S: Spelling>(side: &[S]) -> usize
    ensures { result ≡ count_by (λ x. is_some (S.numbering.to x)) side.now }
{
    side.iter().filter(|x| x.number().is_some()).count()
}

// The terms with a finite coefficient, with commas between them.
fn push_terms<S: Spelling>(text: &mut Vec<u8>, names: &Names, side: &[S]) -> Result<(), NoMemory>
    requires names { length side.now ≡ length names.now + 1 }
    requires width { length side.now ≤ 64 }
    ensures { OnOk result (text.new.items ≡ text.old.items
        ++ comma_list (terms_from S.KIND names.now 0 (numbers S.numbering side.now))) }
{
    let mut started = false;
    for i in 0..side.len() {
        let x = side[i];
        if x.number().is_none() {
            continue;
        }
        push_comma(text, started)?;
        push_term(text, names, x, i)?;
        started = true;
    }
    Ok(())
}

// A comma and a space, unless nothing stands before them.
fn push_comma(text: &mut Vec<u8>, started: bool) -> Result<(), NoMemory>
    ensures { OnOk result (text.new.items ≡ text.old.items ++ (if started then codes ", " else [])) }
{
    if started {
        return text.extend_from_slice(b", ");
    }
    Ok(())
}

// The term of coordinate `i` with the finite coefficient `x`.
fn push_term<S: Spelling>(text: &mut Vec<u8>, names: &Names, x: S, i: usize) -> Result<(), NoMemory>
    requires coordinate { i < length names.now + 1 }
    requires width { i < 64 }
    ensures { (c : _) → S.numbering.to x ≡ Some c →
        OnOk result (text.new.items ≡ text.old.items ++ term_text S.KIND names.now i c) }
{
    if i == 0 {
        return x.push_element(text);
    }
    let name = names.name((i - 1) as u32);
    text.extend_from_slice(name.as_bytes())?;
    match x.number() {
        Some(c) => push_shift(text, c),
        None => Ok(()),
    }
}

// What stands behind a variable to which `c` is added.
fn push_shift(text: &mut Vec<u8>, c: i64) -> Result<(), NoMemory>
    ensures { OnOk result (text.new.items ≡ text.old.items ++ shift_text c) }
{
    if c == 0 {
        return Ok(());
    }
    let sign: &[u8] = if c > 0 { b" + " } else { b" - " };
    text.extend_from_slice(sign)?;
    let mut buffer = Buffer::new();
    text.extend_from_slice(buffer.format(c.unsigned_abs()).as_bytes())
}
