// The plain way to the extreme rows, with arithmetic of its own: from the unit rows on, for each inequality all mixed
// rows of a row that it keeps and one that it drops, and at the end `reduce`. It gives what `ext` gives.

use itoa::Buffer;
use row_examples::Draws;
use run_examples::{answer_of, same_ending};
use std::alloc::Global;
use std::test::Fail;

// Elements of all three semirings, by max-plus: min-plus with the signs turned, truth values as the zero and 0.
const ZERO: i64 = i64::MIN;

/// Entries of coordinate 0 and of up to 3 variables; those past the variables are the zero.
type Entries = [i64; 4];

#[derive(Clone, Copy)]
struct Halfspace {
    left: Entries,
    right: Entries,
}

/// How a semiring is spelled.
#[derive(Clone, Copy)]
struct Ring {
    name: &'static [u8],
    zero: &'static [u8],
    sum: &'static [u8],
    order: &'static [u8],
    /// What an element is multiplied by before it is printed; 0 for truth values.
    sign: i64,
}

const MAX: Ring = Ring {
    name: b"max",
    zero: b"-oo",
    sum: b"max(",
    order: b" <= ",
    sign: 1,
};

const MIN: Ring = Ring {
    name: b"min",
    zero: b"oo",
    sum: b"min(",
    order: b" >= ",
    sign: -1,
};

const BOOL: Ring = Ring {
    name: b"bool",
    zero: b"false",
    sum: b"or(",
    order: b" => ",
    sign: 0,
};

const NAMES: [&[u8]; 4] = [b"", b"x", b"y", b"z"];

fn times(a: i64, b: i64) -> i64 {
    if a == ZERO || b == ZERO {
        ZERO
    } else {
        a.wrapping_add(b)
    }
}

fn dot(side: &Entries, row: &Entries) -> i64 {
    let mut sum = ZERO;
    for i in 0..4 {
        sum = sum.max(times(side[i], row[i]));
    }
    sum
}

fn scaled(row: &Entries, factor: i64) -> Entries {
    let mut entries = *row;
    for i in 0..4 {
        entries[i] = times(factor, row[i]);
    }
    entries
}

fn joined(row: &Entries, other: &Entries) -> Entries {
    let mut entries = *row;
    for i in 0..4 {
        entries[i] = row[i].max(other[i]);
    }
    entries
}

// The multiple whose first finite entry is 0.
fn normalised(row: &Entries) -> Entries {
    match row.iter().find(|x| **x != ZERO) {
        Some(first) => scaled(row, first.wrapping_neg()),
        None => *row,
    }
}

fn holds(halfspace: &Halfspace, row: &Entries) -> bool {
    dot(&halfspace.left, row) <= dot(&halfspace.right, row)
}

// The multiples of both rows at which the two sides meet, joined.
fn mixed(halfspace: &Halfspace, kept: &Entries, dropped: &Entries) -> Entries {
    let kept_part = scaled(kept, dot(&halfspace.left, dropped));
    let dropped_part = scaled(dropped, dot(&halfspace.right, kept));
    normalised(&joined(&kept_part, &dropped_part))
}

fn push_mixed(
    out: &mut Vec<Entries>,
    rows: &[Entries],
    halfspace: &Halfspace,
    dropped: &Entries,
) -> Result<(), Fail> {
    for kept in rows {
        if holds(halfspace, kept) && dot(&halfspace.right, kept) != ZERO {
            out.push(mixed(halfspace, kept, dropped))?;
        }
    }
    Ok(())
}

fn stepped(alloc: Global, rows: &[Entries], halfspace: &Halfspace) -> Result<Vec<Entries>, Fail> {
    let mut out = Vec::new(alloc);
    for row in rows {
        if holds(halfspace, row) {
            out.push(*row)?;
        } else {
            push_mixed(&mut out, rows, halfspace, row)?;
        }
    }
    Ok(out)
}

fn units(alloc: Global, n: usize) -> Result<Vec<Entries>, Fail> {
    let mut rows = Vec::new(alloc);
    for i in 0..4 {
        if i < n {
            let mut row = [ZERO; 4];
            row[i] = 0;
            rows.push(row)?;
        }
    }
    Ok(rows)
}

fn generated(alloc: Global, n: usize, system: &[Halfspace]) -> Result<Vec<Entries>, Fail> {
    let mut rows = units(alloc, n)?;
    for halfspace in system {
        rows = stepped(alloc, &rows, halfspace)?;
    }
    Ok(rows)
}

// A draw for each coordinate: to the left, to the right or nowhere, and a coefficient from -10 to 10.
fn drawn(draws: &mut Draws, n: usize, ring: Ring) -> Halfspace {
    let mut left = [ZERO; 4];
    let mut right = [ZERO; 4];
    for i in 0..4 {
        if i < n {
            let draw = draws.next();
            let number = i64::from(draw / 3 % 21).wrapping_sub(10);
            let coefficient = if ring.sign == 0 { 0 } else { number };
            match draw % 3 {
                0 => left[i] = coefficient,
                1 => right[i] = coefficient,
                _ => {}
            }
        }
    }
    Halfspace { left, right }
}

fn system_of(
    alloc: Global,
    draws: &mut Draws,
    n: usize,
    count: u32,
    ring: Ring,
) -> Result<Vec<Halfspace>, Fail> {
    let mut system = Vec::new(alloc);
    for _ in 0..count {
        system.push(drawn(draws, n, ring))?;
    }
    Ok(system)
}

fn header(alloc: Global, kind: &[u8], n: usize, ring: Ring) -> Result<Vec<u8>, Fail> {
    let mut text = Vec::from_slice(alloc, kind)?;
    text.extend_from_slice(b"semiring ")?;
    text.extend_from_slice(ring.name)?;
    text.extend_from_slice(b"\nvars")?;
    for name in NAMES.iter().skip(1).take(n.saturating_sub(1)) {
        text.extend_from_slice(b" ")?;
        text.extend_from_slice(name)?;
    }
    text.extend_from_slice(b"\n")?;
    Ok(text)
}

fn push_element(text: &mut Vec<u8>, x: i64, ring: Ring) -> Result<(), Fail> {
    if x == ZERO {
        text.extend_from_slice(ring.zero)?;
    } else if ring.sign == 0 {
        text.extend_from_slice(b"true")?;
    } else {
        let mut buffer = Buffer::new();
        text.extend_from_slice(buffer.format(x.wrapping_mul(ring.sign)).as_bytes())?;
    }
    Ok(())
}

fn push_variable(text: &mut Vec<u8>, name: &[u8], x: i64, ring: Ring) -> Result<(), Fail> {
    text.extend_from_slice(name)?;
    if ring.sign != 0 {
        let number = x.wrapping_mul(ring.sign);
        let sign: &[u8] = if number < 0 { b" - " } else { b" + " };
        let mut buffer = Buffer::new();
        text.extend_from_slice(sign)?;
        text.extend_from_slice(buffer.format(number.unsigned_abs()).as_bytes())?;
    }
    Ok(())
}

fn push_side(text: &mut Vec<u8>, side: &Entries, ring: Ring) -> Result<(), Fail> {
    text.extend_from_slice(ring.sum)?;
    push_element(text, side[0], ring)?;
    for i in 1..4 {
        if side[i] != ZERO {
            text.extend_from_slice(b", ")?;
            push_variable(text, NAMES[i], side[i], ring)?;
        }
    }
    text.extend_from_slice(b")")?;
    Ok(())
}

fn push_row(text: &mut Vec<u8>, row: &Entries, n: usize, ring: Ring) -> Result<(), Fail> {
    let word: &[u8] = if row[0] == ZERO { b"ray" } else { b"point" };
    text.extend_from_slice(word)?;
    for i in 1..4 {
        if i < n {
            let between: &[u8] = if i == 1 { b" [" } else { b", " };
            text.extend_from_slice(between)?;
            push_element(text, row[i], ring)?;
        }
    }
    text.extend_from_slice(b"]\n")?;
    Ok(())
}

fn inequalities(
    alloc: Global,
    system: &[Halfspace],
    n: usize,
    ring: Ring,
) -> Result<Vec<u8>, Fail> {
    let mut text = header(alloc, b"kind ineqs\n", n, ring)?;
    for halfspace in system {
        push_side(&mut text, &halfspace.left, ring)?;
        text.extend_from_slice(ring.order)?;
        push_side(&mut text, &halfspace.right, ring)?;
        text.extend_from_slice(b"\n")?;
    }
    Ok(text)
}

fn generators(alloc: Global, rows: &[Entries], n: usize, ring: Ring) -> Result<Vec<u8>, Fail> {
    let mut text = header(alloc, b"kind gens\n", n, ring)?;
    for row in rows {
        push_row(&mut text, row, n, ring)?;
    }
    Ok(text)
}

// That both ways agree on the system of the seed, of 1 to 3 variables and 1 to 4 inequalities; a failure with both
// answers, where not.
fn agree(alloc: Global, seed: u32, ring: Ring) -> Result<(), Fail> {
    let n = seed as usize % 3 + 2;
    let mut draws = Draws::from_seed(seed);
    let system = system_of(alloc, &mut draws, n, seed % 4 + 1, ring)?;
    let rows = generated(alloc, n, &system)?;
    let plain = answer_of(alloc, "reduce", &generators(alloc, &rows, n, ring)?)?;
    let asked = inequalities(alloc, &system, n, ring)?;
    let answer = answer_of(alloc, "ext", &asked)?;
    let what = format!(in alloc; "seed {seed}: ext")?;
    same_ending(
        alloc,
        (what.as_str(), &asked),
        (0, &plain, b""),
        (0, &answer, b""),
    )
}

#[test]
fn both_ways_agree_on_systems_of_max(rt: HostRuntime) -> Result<(), Fail> {
    for seed in 0..240 {
        agree(rt.alloc(), seed, MAX)?;
    }
    Ok(())
}

#[test]
fn both_ways_agree_on_systems_of_min(rt: HostRuntime) -> Result<(), Fail> {
    for seed in 0..240 {
        agree(rt.alloc(), seed, MIN)?;
    }
    Ok(())
}

#[test]
fn both_ways_agree_on_systems_of_truth_values(rt: HostRuntime) -> Result<(), Fail> {
    for seed in 0..240 {
        agree(rt.alloc(), seed, BOOL)?;
    }
    Ok(())
}
