//! The lines that tell a solution: its tangent directed hypergraph, its types, and whether it is extreme.
ghost use Rattle.std.specs.Prelude.{◌≡◌, ◌≢◌, ◌+◌, ◌^◌, ◌<◌, ◌≤◌, ◌++◌, ◌↔◌, ℕ, length, codes, decimal, slice_get, Some, OnOk, IfOk, All, if◌then◌else◌};
ghost use Rattle.trop_theory.specs.Vectors.{row_size};
ghost use Rattle.trop_theory.specs.Inequalities.{Solves, IsTrueAt, inequality_size, system_size};
ghost use Rattle.trop_criterion.specs.Hypergraphs.{Has};
ghost use Rattle.tplib_tangent.specs.Members.{has_bit};
ghost use Rattle.tplib_tangent.specs.Tangent.{edge_line, names_of, or_none, types_line, MayBeEdgeLine, AreEdgeLines, IsSolutionText};
ghost use Rattle.tplib_tangent.specs.Adds.{Adds};

use crate::coordinates::push_members;
use crate::numbers::push_number;
use std::alloc::{AllocError, Global};
use trop_hyper::{Edge, Looks, Mask};
use trop_row::{Ineq, Row, System};
use trop_scalar::Scalar;
use trop_tangent::{is_extreme, tight, types};
use trop_text::Names;

// The lines of a solution: its tangent hypergraph, its types, and whether it is extreme.
pub fn solution_text<S: Scalar>(
    alloc: Global,
    names: &Names,
    system: &System<S>,
    row: &Row<S>,
) -> Result<Vec<u8>, AllocError>
    requires names { system.now.n ≡ length names.now + 1 }
    requires solves { Solves S.ring system.now.n system.now.inequalities row.now }
    requires row_size { row_size S.ring row.now ≤ 2 ^ 60 }
    requires size { system_size S.ring system.now.inequalities ≤ 2 ^ 49 }
    ensures { IfOk result (λ text. IsSolutionText S.ring names.now system.now.n system.now.inequalities row.now
        text.items) }
{
    let mut text = Vec::new(alloc);
    let mut looks = Looks::new();
    push_edges(&mut text, names, system, row, &mut looks)?;
    push_types(&mut text, names, types(system, row, &mut looks), system.n())?;
    push_extreme(&mut text, is_extreme(system, row, &mut looks))?;
    Ok(text)
}

// The lines of the hyperedges, in the order of the inequalities.
fn push_edges<S: Scalar>(
    text: &mut Vec<u8>,
    names: &Names,
    system: &System<S>,
    row: &Row<S>,
    looks: &mut Looks,
) -> Result<(), AllocError>
    requires names { system.now.n ≡ length names.now + 1 }
    requires wide { length row.now ≡ system.now.n }
    requires row_size { row_size S.ring row.now ≤ 2 ^ 60 }
    requires size { system_size S.ring system.now.inequalities ≤ 2 ^ 49 }
    ensures { OnOk result (Adds text.old.items text.new.items
        (AreEdgeLines S.ring names.now row.now 1 system.now.inequalities)) }
{
    for k in 0..system.len() {
        push_if_tight(text, names, k + 1, system.get(k), row, looks)?;
    }
    Ok(())
}

// The line of inequality number `k`, if it is tight.
fn push_if_tight<S: Scalar>(
    text: &mut Vec<u8>,
    names: &Names,
    k: u32,
    ineq: &Ineq<S>,
    row: &Row<S>,
    looks: &mut Looks,
) -> Result<(), AllocError>
    requires names { length row.now ≡ length names.now + 1 }
    requires lengths { length row.now ≡ length ineq.now.left }
    requires row_size { row_size S.ring row.now ≤ 2 ^ 60 }
    requires size { inequality_size S.ring ineq.now ≤ 2 ^ 49 }
    ensures { OnOk result (Adds text.old.items text.new.items (MayBeEdgeLine S.ring names.now row.now k ineq.now)) }
{
    match tight(ineq, row, looks) {
        Some(edge) => push_edge(text, names, k, &edge, row.len()),
        None => Ok(()),
    }
}

// The line of a hyperedge in `n` coordinates that inequality number `k` gives.
fn push_edge(
    text: &mut Vec<u8>,
    names: &Names,
    k: u32,
    edge: &Edge,
    n: u32,
) -> Result<(), AllocError>
    requires coordinates { n ≤ length names.now + 1 }
    requires at_most { n ≤ 64 }
    ensures { OnOk result (text.new.items ≡ text.old.items ++ edge_line names.now n k (has_bit edge.now.tail)
        (has_bit edge.now.head)) }
{
    text.extend_from_slice(b"edge ")?;
    push_number(text, k)?;
    text.push(b':')?;
    push_members(text, names, edge.tail, n)?;
    text.extend_from_slice(b" ->")?;
    push_members(text, names, edge.head, n)?;
    text.push(b'\n')?;
    Ok(())
}

// The line of the types.
fn push_types(text: &mut Vec<u8>, names: &Names, types: Mask, n: u32) -> Result<(), AllocError>
    requires coordinates { n ≤ length names.now + 1 }
    requires at_most { n ≤ 64 }
    ensures { OnOk result (text.new.items ≡ text.old.items ++ types_line names.now n (has_bit types)) }
{
    text.extend_from_slice(b"types:")?;
    push_names_or_none(text, names, types, n)?;
    text.push(b'\n')?;
    Ok(())
}

fn push_names_or_none(
    text: &mut Vec<u8>,
    names: &Names,
    types: Mask,
    n: u32,
) -> Result<(), AllocError>
    requires coordinates { n ≤ length names.now + 1 }
    requires at_most { n ≤ 64 }
    ensures { OnOk result (text.new.items ≡ text.old.items ++ or_none (names_of names.now (has_bit types) n)) }
{
    let before = text.len();
    push_members(text, names, types, n)?;
    if text.len() == before {
        text.extend_from_slice(b" none")?;
    }
    Ok(())
}

// The line that says whether the row is extreme.
fn push_extreme(text: &mut Vec<u8>, extreme: bool) -> Result<(), AllocError>
    ensures { OnOk result (text.new.items ≡ text.old.items
        ++ (if extreme then codes "extreme: yes\n" else codes "extreme: no\n")) }
{
    let line: &[u8] = if extreme {
        b"extreme: yes\n"
    } else {
        b"extreme: no\n"
    };
    text.extend_from_slice(line)
}
