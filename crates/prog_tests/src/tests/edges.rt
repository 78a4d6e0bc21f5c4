//! The control graph of the program of the formats page.
use super::reading::graph_of;
use prog_graph::{Edge, Op, Point};
use prog_lang::Term;
use std::test::Fail;

const PROGRAM: &[u8] = b"vars ls n ld;
assume ls >= 0;
ld := 0;
while ld < n && ld < ls {
  ld := ld + 1;
}
if ld >= n {
  havoc ld;
  assume ld >= n;
}
assert min(ls, n) = min(ld, n);
";

const POINTS: [Point; 10] = [
    Point::Statement(0),
    Point::Statement(1),
    Point::Statement(2),
    Point::Inner,
    Point::Statement(3),
    Point::Statement(4),
    Point::Statement(5),
    Point::Statement(6),
    Point::Statement(7),
    Point::Exit,
];

const LS: u32 = 1;

const N: u32 = 2;

const LD: u32 = 3;

fn term(coord: u32, add: i64) -> Term {
    Term { coord, add }
}

fn guard(from: u32, to: u32, left: Term, right: Term) -> Edge {
    Edge {
        from,
        to,
        op: Op::Guard { left, right },
    }
}

fn set(from: u32, to: u32, value: Term) -> Edge {
    Edge {
        from,
        to,
        op: Op::Set { var: LD, value },
    }
}

// The edges in the order of their numbers.
fn edges_wanted() -> [Edge; 12] {
    [
        guard(0, 1, term(0, 0), term(LS, 0)),
        set(1, 2, term(0, 0)),
        guard(2, 3, term(LD, 1), term(N, 0)),
        guard(2, 5, term(N, 1), term(LD, 1)),
        guard(3, 4, term(LD, 1), term(LS, 0)),
        guard(3, 5, term(LS, 1), term(LD, 1)),
        set(4, 2, term(LD, 1)),
        guard(5, 6, term(N, 0), term(LD, 0)),
        guard(5, 8, term(LD, 1), term(N, 0)),
        Edge {
            from: 6,
            to: 7,
            op: Op::Havoc { var: LD },
        },
        guard(7, 8, term(N, 0), term(LD, 0)),
        Edge {
            from: 8,
            to: 9,
            op: Op::Skip,
        },
    ]
}

#[test]
fn points_edges_and_heads(rt: HostRuntime) -> Result<(), Fail> {
    let alloc = rt.alloc();
    let Some(graph) = graph_of(alloc, PROGRAM)? else {
        return Err(Fail::new(format!(in alloc; "the program was not read")?));
    };
    let (points, edges) = (graph.points().as_slice(), graph.edges().as_slice());
    assert_eq!(rt; points, POINTS.as_slice());
    let edges_wanted = edges_wanted();
    assert_eq!(rt; edges.len(), edges_wanted.len());
    for (got, wanted) in edges.iter().zip(&edges_wanted) {
        assert_eq!(rt; got, wanted);
    }
    assert_eq!(rt; graph.heads().as_slice(), [2].as_slice());
    Ok(())
}
