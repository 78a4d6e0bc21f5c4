//! Sides of inequalities in variables and their opposites, as they are printed.
ghost use Rattle.std.specs.Prelude.{◌≡◌, ◌+◌, ◌*◌, ◌<◌, ◌≤◌, ◌++◌, [], length, codes, count_by, is_some, slice_index_or, OnOk, Some, if◌then◌else◌};
ghost use Rattle.trop_spelling.specs.Printed.{numbers, shift_text, term_text, terms_from, comma_list, printed_side};
ghost use Rattle.mixed_print.specs.Names.{twin_names};

use crate::NoMemory;
use itoa::Buffer;
use trop_spelling::Spelling;
use trop_text::Names;

// The name of a variable, or of an opposite, which stands behind all variables.
fn push_name(text: &mut Vec<u8>, names: &Names, place: usize) -> Result<(), NoMemory>
    requires { place < 2 * length names.now }
    ensures { OnOk result (text.new.items ≡ text.old.items ++ slice_index_or (twin_names names.now) place []) }
{
    let vars = names.len() as usize;
    if place < vars {
        return text.extend_from_slice(names.name(place as u32).as_bytes());
    }
    text.push(b'-')?;
    text.extend_from_slice(names.name((place - vars) as u32).as_bytes())
}

// What stands behind a name to which `c` is added.
fn push_shift(text: &mut Vec<u8>, c: i64) -> Result<(), NoMemory>
    ensures { OnOk result (text.new.items ≡ text.old.items ++ shift_text c) }
{
    if c == 0 {
        return Ok(());
    }
    let sign: &[u8] = if c > 0 { b" + " } else { b" - " };
    text.extend_from_slice(sign)?;
    let mut buffer = Buffer::new();
    text.extend_from_slice(buffer.format(c.unsigned_abs()).as_bytes())
}

// The term of coordinate `i` with the finite coefficient `x`.
fn push_term<S: Spelling>(text: &mut Vec<u8>, names: &Names, x: S, i: usize) -> Result<(), NoMemory>
    requires { i < 2 * length names.now + 1 }
    ensures { (c : _) → S.numbering.to x ≡ Some c →
        OnOk result (text.new.items ≡ text.old.items ++ term_text S.KIND (twin_names names.now) i c) }
{
    if i == 0 {
        return x.push_element(text);
    }
    push_name(text, names, i - 1)?;
    match x.number() {
        Some(c) => push_shift(text, c),
        None => Ok(()),
    }
}

// A comma and a space, unless nothing stands before them.
fn push_comma(text: &mut Vec<u8>, started: bool) -> Result<(), NoMemory>
    ensures { OnOk result (text.new.items ≡ text.old.items ++ (if started then codes ", " else [])) }
{
    if started {
        return text.extend_from_slice(b", ");
    }
    Ok(())
}

// The terms with a finite coefficient, with commas between them.
fn push_terms<S: Spelling>(text: &mut Vec<u8>, names: &Names, side: &[S]) -> Result<(), NoMemory>
    requires { length side.now ≡ 2 * length names.now + 1 }
    ensures { OnOk result (text.new.items ≡ text.old.items
        ++ comma_list (terms_from S.KIND (twin_names names.now) 0 (numbers S.numbering side.now))) }
{
    let mut started = false;
    for i in 0..side.len() {
        let x = side[i];
        if x.number().is_none() {
            continue;
        }
        push_comma(text, started)?;
        push_term(text, names, x, i)?;
        started = true;
    }
    Ok(())
}

// How many coefficients are finite.
fn count_terms<S: Spelling>(side: &[S]) -> usize
    ensures { result ≡ count_by (λ x. is_some (S.numbering.to x)) side.now }
{
    side.iter().filter(|x| x.number().is_some()).count()
}

/// Appends the side as it is printed: the zero where no coefficient is finite, one term alone, more behind the sum word.
pub(crate) fn push_side<S: Spelling>(
    text: &mut Vec<u8>,
    names: &Names,
    side: &[S],
) -> Result<(), NoMemory>
    requires { length side.now ≡ 2 * length names.now + 1 }
    ensures { OnOk result (text.new.items ≡ text.old.items
        ++ printed_side S.KIND (twin_names names.now) (numbers S.numbering side.now)) }
{
    let count = count_terms(side);
    if count == 0 {
        return S::zero().push_element(text);
    }
    if count == 1 {
        return push_terms(text, names, side);
    }
    text.extend_from_slice(S::sum_word())?;
    text.push(b'(')?;
    push_terms(text, names, side)?;
    text.push(b')')?;
    Ok(())
}
