//! Files that were worked out by hand: what they give, or their first fault.
ghost use Rattle.std.specs.Prelude.{◌≤◌, ◌^◌, length};

use row_examples::same_text;
use std::alloc::{AllocError, Global};
use std::str::from_utf8;
use std::test::Fail;
use trop_files::{
    AnyGens, AnyIneqLines, AnyIneqs, IneqLines, open_ineqs, print_ineqs, read_gens, read_ineqs,
};
use trop_spelling::Spelling;
use trop_text::TextErr;

/// Why a file stands, the file, and what is wanted.
type Case = (&'static str, &'static str, &'static str);

// The count, or the text of the fault.
fn told(alloc: Global, outcome: Result<u32, TextErr>) -> Result<String, AllocError> {
    match outcome {
        Ok(count) => format!(in alloc; "{count}"),
        Err(err) => format!(in alloc; "{err}"),
    }
}

// How many vectors a file of generators gives.
fn gens(alloc: Global, bytes: &[u8]) -> Result<u32, TextErr>
    requires { length bytes.now ≤ 2 ^ 31 }
{
    match read_gens(alloc, bytes)? {
        AnyGens::Max(file) => Ok(file.gens.len()),
        AnyGens::Min(file) => Ok(file.gens.len()),
        AnyGens::Bool(file) => Ok(file.gens.len()),
    }
}

// How many inequalities a file gives.
fn ineqs(alloc: Global, bytes: &[u8]) -> Result<u32, TextErr>
    requires { length bytes.now ≤ 2 ^ 31 }
{
    match read_ineqs(alloc, bytes)? {
        AnyIneqs::Max(file) => Ok(file.system.len()),
        AnyIneqs::Min(file) => Ok(file.system.len()),
        AnyIneqs::Bool(file) => Ok(file.system.len()),
    }
}

// Files of generators, and how many vectors each gives, or its first fault.
const GENS: [Case; 16] = [
    ("a header alone", "kind gens\nsemiring max\nvars x\n", "0"),
    (
        "two points, a comment and no last line end",
        "kind gens\nsemiring max\nvars x\npoint [0]\n# two\n\tpoint [2]",
        "2",
    ),
    (
        "a ray of zeros adds nothing; the greatest number",
        "kind gens\nsemiring max\nvars x\nray [-oo]\nray [1099511627776]\n",
        "1",
    ),
    (
        "no variable",
        "kind gens\nsemiring bool\nvars\npoint []\n",
        "1",
    ),
    ("no byte", "", "line 1, column 1: syntax"),
    ("no semiring", "kind gens\n", "line 2, column 1: syntax"),
    ("another kind", "kind at\n", "line 1: wrong kind"),
    ("no kind", "kind system\n", "line 1, column 6: syntax"),
    (
        "no such semiring",
        "kind gens\nsemiring plus\n",
        "line 2, column 10: syntax",
    ),
    (
        "a name twice",
        "kind gens\nsemiring max\nvars x y x\n",
        "line 3: duplicate name",
    ),
    (
        "a word that is no name",
        "kind gens\nsemiring max\nvars x oo\n",
        "line 3, column 8: syntax",
    ),
    (
        "an entry too many",
        "kind gens\nsemiring max\nvars x\npoint [1, 2]\n",
        "line 4, column 9: syntax",
    ),
    (
        "a row without its end",
        "kind gens\nsemiring max\nvars x\npoint [1 # no end\n",
        "line 4, column 18: syntax",
    ),
    (
        "the zero of max in min",
        "kind gens\nsemiring min\nvars x\npoint [- oo]\n",
        "line 4, column 10: syntax",
    ),
    (
        "a number in bool",
        "kind gens\nsemiring bool\nvars x\npoint [0]\n",
        "line 4, column 8: syntax",
    ),
    (
        "a number past the greatest",
        "kind gens\nsemiring min\nvars x\npoint [1099511627777]\n",
        "line 4: number out of range",
    ),
];

#[test]
fn generators_and_their_first_faults(rt: HostRuntime) -> Result<(), Fail> {
    for (why, text, wanted) in &GENS {
        let bytes = text.as_bytes();
        if bytes.len() > 200 {
            return Err("a long text")?;
        }
        let got = told(rt.alloc(), gens(rt.alloc(), bytes))?;
        same_text(rt.alloc(), why, wanted, got.as_str())?;
    }
    Ok(())
}

// Files of inequalities, and how many each gives, or its first fault.
const INEQS: [Case; 9] = [
    (
        "sums, signs and both orders",
        "kind ineqs\nsemiring max\nvars x y\nmax(0, x + 2, x) <= y - 1\n- 3 >= x\n",
        "2",
    ),
    (
        "no right side",
        "kind ineqs\nsemiring max\nvars x\nx <=\n",
        "line 4, column 5: syntax",
    ),
    (
        "a name that is none of the variables",
        "kind ineqs\nsemiring max\nvars x\nz <= x\n",
        "line 4: unknown name",
    ),
    (
        "a name twice",
        "kind ineqs\nsemiring max\nvars x x\n",
        "line 3: duplicate name",
    ),
    (
        "a number before a name",
        "kind ineqs\nsemiring max\nvars x\n3 + x <= 0\n",
        "line 4, column 3: syntax",
    ),
    (
        "a name less the zero",
        "kind ineqs\nsemiring max\nvars x\nx - oo <= 0\n",
        "line 4, column 5: syntax",
    ),
    (
        "a sum of nothing",
        "kind ineqs\nsemiring max\nvars x\nmax() <= 0\n",
        "line 4, column 5: syntax",
    ),
    (
        "the sum of another semiring",
        "kind ineqs\nsemiring max\nvars x\nmin(x, 0) <= 0\n",
        "line 4, column 1: syntax",
    ),
    (
        "the order of another semiring in a later line",
        "kind ineqs\nsemiring bool\nvars x\nor(x, true) => false\nx <= x\n",
        "line 5, column 3: syntax",
    ),
];

#[test]
fn inequalities_and_their_first_faults(rt: HostRuntime) -> Result<(), Fail> {
    for (why, text, wanted) in &INEQS {
        let bytes = text.as_bytes();
        if bytes.len() > 200 {
            return Err("a long text")?;
        }
        let got = told(rt.alloc(), ineqs(rt.alloc(), bytes))?;
        same_text(rt.alloc(), why, wanted, got.as_str())?;
    }
    Ok(())
}

// The inequalities of a file as they are printed.
fn printed(alloc: Global, bytes: &[u8]) -> Result<Vec<u8>, TextErr>
    requires { length bytes.now ≤ 2 ^ 31 }
{
    let text = match read_ineqs(alloc, bytes)? {
        AnyIneqs::Max(file) => print_ineqs(alloc, &file.names, &file.system)?,
        AnyIneqs::Min(file) => print_ineqs(alloc, &file.names, &file.system)?,
        AnyIneqs::Bool(file) => print_ineqs(alloc, &file.names, &file.system)?,
    };
    Ok(text)
}

const PRINTED: [Case; 2] = [
    (
        "the greater number is the lesser element",
        "kind ineqs\nsemiring min\nvars x y\nx <= min(y, y + 1)\n",
        "kind ineqs\nsemiring min\nvars x y\ny >= x\n",
    ),
    (
        "terms of one coordinate are added",
        "kind ineqs\nsemiring max\nvars x y\nmax(1, 3, x, x + 2) >= y\n",
        "kind ineqs\nsemiring max\nvars x y\ny <= max(3, x + 2)\n",
    ),
];

#[test]
fn sides_that_are_turned_and_terms_that_are_added(rt: HostRuntime) -> Result<(), Fail> {
    for (why, text, wanted) in &PRINTED {
        let bytes = text.as_bytes();
        if bytes.len() > 200 {
            return Err("a long text")?;
        }
        let got = printed(rt.alloc(), bytes).map_err(|_| "a file of inequalities")?;
        let got = from_utf8(got.as_slice()).unwrap_or("no text");
        same_text(rt.alloc(), why, wanted, got)?;
    }
    Ok(())
}

// What the next call answers: one more inequality, the end, or the refusal.
fn next_text<S: Spelling>(
    alloc: Global,
    lines: &mut IneqLines<'_, S>,
) -> Result<String, AllocError> {
    match lines.next(alloc) {
        Ok(Some(_)) => String::from_str(alloc, "one"),
        Ok(None) => String::from_str(alloc, "end"),
        Err(err) => format!(in alloc; "{err}"),
    }
}

// What the next five calls answer.
fn five<S: Spelling>(alloc: Global, lines: &mut IneqLines<'_, S>) -> Result<String, AllocError> {
    let mut text = String::new(alloc);
    for k in 0..5 {
        text.push_str(if k == 0 { "" } else { ", " })?;
        text.push_str(next_text(alloc, lines)?.as_str())?;
    }
    Ok(text)
}

fn first_five(alloc: Global, bytes: &[u8]) -> Result<String, AllocError>
    requires { length bytes.now ≤ 2 ^ 31 }
{
    match open_ineqs(alloc, bytes) {
        Ok(AnyIneqLines::Max(mut lines)) => five(alloc, &mut lines),
        Ok(AnyIneqLines::Min(mut lines)) => five(alloc, &mut lines),
        Ok(AnyIneqLines::Bool(mut lines)) => five(alloc, &mut lines),
        Err(err) => format!(in alloc; "{err}"),
    }
}

const LINES: [Case; 4] = [
    (
        "the end stays the end",
        "kind ineqs\nsemiring max\nvars x\nx <= 3\nx <= 3\nx + 2 <= 5\n",
        "one, one, one, end, end",
    ),
    (
        "a refusal stays, whatever comes behind it",
        "kind ineqs\nsemiring min\nvars x\nx <= 0\n# none\nx <= z\nx <= 1\n",
        "one, line 6: unknown name, line 6: unknown name, line 6: unknown name, line 6: unknown name",
    ),
    (
        "an empty line, and no last line end",
        "kind ineqs\nsemiring bool\nvars x y\n\nx => y",
        "one, end, end, end, end",
    ),
    (
        "a header at fault",
        "kind ineqs\nsemiring max\nvars x x\n",
        "line 3: duplicate name",
    ),
];

#[test]
fn lines_one_by_one(rt: HostRuntime) -> Result<(), Fail> {
    for (why, text, wanted) in &LINES {
        let bytes = text.as_bytes();
        if bytes.len() > 200 {
            return Err("a long text")?;
        }
        let got = first_five(rt.alloc(), bytes)?;
        same_text(rt.alloc(), why, wanted, got.as_str())?;
    }
    Ok(())
}
