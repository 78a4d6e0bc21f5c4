//! Files of two lists.
ghost use Rattle.std.specs.Prelude.{◌≤◌, ◌^◌, length};

use std::alloc::Global;
use std::test::Fail;
use trop_files::{AnyPair, read_pair};
use trop_text::{Fault, TextErr};

// Files of two lists of generators, and how many vectors each list has. A ray of zeros adds none.
const PAIRS: [(&str, u32, u32); 8] = [
    ("kind pair\nsemiring max\nvars x\nand", 0, 0),
    ("kind pair\nsemiring max\nvars x\nand\n", 0, 0),
    (
        "kind pair\nsemiring max\nvars x\npoint [0]\nand\npoint [1]\nray [0]\n",
        1,
        2,
    ),
    (
        "kind pair\nsemiring max\nvars x\npoint [0]\npoint [0]\n\n\tand # next\r\n",
        2,
        0,
    ),
    (
        "kind pair\nsemiring max\nvars x\nray [-oo]\nand\nray [- oo]\nray [-5]",
        0,
        1,
    ),
    (
        "kind pair\nsemiring max\nvars\npoint []\nray []\nand\npoint []\n",
        1,
        1,
    ),
    (
        "kind pair\nsemiring min\nvars x y\npoint [1, oo]\nray [oo, oo]\nand\npoint [2, 2]\npoint [oo, oo]\n",
        1,
        2,
    ),
    (
        "kind pair\nsemiring bool\nvars x\nray [false]\nand\nray [true]\npoint [false]",
        0,
        2,
    ),
];

// Files of two lists that are at fault, and the fault.
const FAULTS: [(&str, Fault); 27] = [
    ("", Fault::Syntax { line: 1, column: 1 }),
    ("kind gens\n", Fault::WrongKind { line: 1 }),
    ("kind ineqs\n", Fault::WrongKind { line: 1 }),
    ("# two\nkind at pair\n", Fault::WrongKind { line: 2 }),
    ("kind pairs\n", Fault::Syntax { line: 1, column: 6 }),
    (
        "kind pair\nsemiring min\nvars x x\n",
        Fault::DuplicateName { line: 3 },
    ),
    (
        "kind pair\nsemiring max\nvars x\n",
        Fault::Syntax { line: 4, column: 1 },
    ),
    (
        "kind pair\nsemiring max\nvars x\npoint [0]\n",
        Fault::Syntax { line: 5, column: 1 },
    ),
    (
        "kind pair\nsemiring max\nvars x\npoint [0]\n# and\n",
        Fault::Syntax { line: 6, column: 1 },
    ),
    (
        "kind pair\nsemiring max\nvars x\nx\n",
        Fault::Syntax { line: 4, column: 1 },
    ),
    (
        "kind pair\nsemiring max\nvars x\nat [0]\n",
        Fault::Syntax { line: 4, column: 1 },
    ),
    (
        "kind pair\nsemiring max\nvars x\nAND\n",
        Fault::Syntax { line: 4, column: 1 },
    ),
    (
        "kind pair\nsemiring max\nvars x\nand and\n",
        Fault::Syntax { line: 4, column: 5 },
    ),
    (
        "kind pair\nsemiring max\nvars x\nand point [0]\n",
        Fault::Syntax { line: 4, column: 5 },
    ),
    (
        "kind pair\nsemiring max\nvars x\nand;\n",
        Fault::Syntax { line: 4, column: 4 },
    ),
    (
        "kind pair\nsemiring max\nvars x\npoint [0] and\n",
        Fault::Syntax {
            line: 4,
            column: 11,
        },
    ),
    (
        "kind pair\nsemiring max\nvars x\nand\nand\n",
        Fault::Syntax { line: 5, column: 1 },
    ),
    (
        "kind pair\nsemiring max\nvars x\npoint [0]\nand\npoint [0]\nand",
        Fault::Syntax { line: 7, column: 1 },
    ),
    (
        "kind pair\nsemiring max\nvars x\nand\nx\n",
        Fault::Syntax { line: 5, column: 1 },
    ),
    (
        "kind pair\nsemiring max\nvars x\npoint [x]\nand\n",
        Fault::Syntax { line: 4, column: 8 },
    ),
    (
        "kind pair\nsemiring max\nvars x\nand\npoint [x]",
        Fault::Syntax { line: 5, column: 8 },
    ),
    (
        "kind pair\nsemiring max\nvars x\nand\npoint",
        Fault::Syntax { line: 5, column: 6 },
    ),
    (
        "kind pair\nsemiring max\nvars x\npoint [1099511627777]\nand\n",
        Fault::NumberRange { line: 4 },
    ),
    (
        "kind pair\nsemiring max\nvars x\nand\n\nray [-1099511627777]\n",
        Fault::NumberRange { line: 6 },
    ),
    (
        "kind pair\nsemiring max\nvars x\nand\npoint [0] 1",
        Fault::Syntax {
            line: 5,
            column: 11,
        },
    ),
    (
        "kind pair\nsemiring min\nvars x\npoint [oo]\nand\npoint [-oo]\n",
        Fault::Syntax { line: 6, column: 9 },
    ),
    (
        "kind pair\nsemiring bool\nvars x\nand\npoint [oo]\n",
        Fault::Syntax { line: 5, column: 8 },
    ),
];

fn lengths(alloc: Global, input: &[u8]) -> Result<(u32, u32), TextErr>
    requires { length input.now ≤ 2 ^ 31 }
{
    match read_pair(alloc, input)? {
        AnyPair::Max(pair) => Ok((pair.left.len(), pair.right.len())),
        AnyPair::Min(pair) => Ok((pair.left.len(), pair.right.len())),
        AnyPair::Bool(pair) => Ok((pair.left.len(), pair.right.len())),
    }
}

#[test]
fn two_lists_of_generators(rt: HostRuntime) -> Result<(), Fail> {
    let alloc = rt.alloc();
    for (input, left, right) in &PAIRS {
        let bytes = input.as_bytes();
        assert!(rt; bytes.len() < 4096);
        assert_eq!(rt; lengths(alloc, bytes), Ok((*left, *right)), "{input}");
    }
    Ok(())
}

#[test]
fn files_of_two_lists_at_fault(rt: HostRuntime) -> Result<(), Fail> {
    let alloc = rt.alloc();
    for (input, fault) in &FAULTS {
        let bytes = input.as_bytes();
        assert!(rt; bytes.len() < 4096);
        assert_eq!(rt;
            lengths(alloc, bytes),
            Err(TextErr::Fault(*fault)),
            "{input}"
        );
    }
    Ok(())
}

// Each list by itself may have 4,096 lines.
#[test]
fn two_lists_of_4096_generators(rt: HostRuntime) -> Result<(), Fail> {
    let alloc = rt.alloc();
    let mut text = Vec::from_slice(alloc, b"kind pair\nsemiring max\nvars x\n")?;
    push_points(&mut text)?;
    text.extend_from_slice(b"and\n")?;
    push_points(&mut text)?;
    assert!(rt; text.len() < 1_000_000);
    assert_eq!(rt; lengths(alloc, &text), Ok((4096, 4096)));
    text.extend_from_slice(b"ray\n")?;
    assert!(rt; text.len() < 1_000_000);
    let fault = Fault::TooManyLines { line: 8197 };
    assert_eq!(rt; lengths(alloc, &text), Err(TextErr::Fault(fault)));
    Ok(())
}

fn push_points(text: &mut Vec<u8>) -> Result<(), Fail> {
    for _ in 0..4096 {
        text.extend_from_slice(b"point [0]\n")?;
    }
    Ok(())
}
