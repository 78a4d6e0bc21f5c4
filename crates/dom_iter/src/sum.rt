//! What reaches a point.
ghost use Rattle.std.specs.Prelude.{◌≡◌, ◌+◌, ◌^◌, ◌<◌, ◌≤◌, length, map, All, slice_index_or, IfOk};
ghost use Rattle.prog_theory.specs.Each.{EachOp};
ghost use Rattle.prog_theory.specs.Fits.{FitsOp};
ghost use Rattle.prog_theory.specs.Within.{IsNumberWithin};
ghost use Rattle.prog_graph.specs.Views.{op_of, edge_of};
ghost use Rattle.prog_graph.specs.Into.{numbers_to};
ghost use Rattle.dom_core.specs.Views.{spot_of};
ghost use Rattle.dom_theory.specs.Relations.{Relations};
ghost use Rattle.dom_theory.specs.Sums.{Adds, AddsAll, Sum, before_edges};
ghost use Rattle.dom_iter.specs.Fair.{AreValues};
ghost use Rattle.dom_iter.specs.Comes.{Comes, IsBegun};

use crate::error::IterErr;
use crate::parts::{image_at, join_at};
use dom_core::{Domain, Part, Spot};
use prog_graph::{Edge, Graph};
use std::alloc::Global;

// The sum so far with what comes along an edge to the point.
fn add_edge<D: Domain>(
    alloc: Global,
    vars: u32,
    values: &[D],
    spot: Spot,
    number: u32,
    edge: &Edge,
    sum: D,
) -> Result<D, IterErr>
    requires here { edge.now.to ≡ spot.point }
    requires vars { D.relations.vars sum ≡ vars }
    requires values { (q : _) → q < length values.now
        → D.relations.vars (slice_index_or values.now q (D.relations.bottom vars)) ≡ vars }
    requires from { edge.now.from < length values.now }
    requires fits { FitsOp vars (op_of edge.now.op) }
    requires numbers { EachOp (λ x. Unit {0}) (IsNumberWithin (2 ^ 31 + 1)) (op_of edge.now.op) }
    ensures { Comes (Adds D.relations (spot_of spot) (λ q. slice_index_or values.now q (D.relations.bottom vars)) number
        (edge_of edge.now) sum) result }
{
    let image = image_at(
        alloc,
        &values[edge.from as usize],
        &edge.op,
        spot,
        Part::Edge(number),
    )?;
    let joined = join_at(alloc, &sum, &image, spot, Part::Sum(number))?;
    Ok(joined)
}

// Everything at point 0, nothing elsewhere.
fn begin<D: Domain>(alloc: Global, graph: &Graph, point: u32) -> Result<D, IterErr>
    requires { graph.now.vars ≤ D.MAX_VARS }
    ensures { IsBegun (before_edges D.relations graph.now point) result }
{
    let made = if point == 0 {
        D::top(alloc, graph.vars())
    } else {
        D::bottom(alloc, graph.vars())
    };
    match made {
        Ok(value) => Ok(value),
        Err(_) => Err(IterErr::NoMemory),
    }
}

// The sum with what comes along the edges to the point, in the order of their numbers.
fn add_edges<D: Domain>(
    alloc: Global,
    vars: u32,
    values: &[D],
    spot: Spot,
    edges: &[Edge],
    into: &[u32],
    begun: D,
) -> Result<D, IterErr>
    requires into { into.now ≡ numbers_to spot.point (map edge_of edges.now) }
    requires vars { D.relations.vars begun ≡ vars }
    requires values { (q : _) → q < length values.now
        → D.relations.vars (slice_index_or values.now q (D.relations.bottom vars)) ≡ vars }
    requires from { All (λ e. e.from < length values.now) (map edge_of edges.now) }
    requires fits { All (λ e. FitsOp vars e.op) (map edge_of edges.now) }
    requires numbers { All (λ e. EachOp (λ x. Unit {0}) (IsNumberWithin (2 ^ 31 + 1)) e.op) (map edge_of edges.now) }
    ensures { Comes (AddsAll D.relations (spot_of spot) (λ q. slice_index_or values.now q (D.relations.bottom vars)) 0
        (map edge_of edges.now) begun) result }
{
    let mut sum = begun;
    for k in 0..into.len() {
        let number = into[k];
        let edge = edges[number as usize];
        sum = add_edge(alloc, vars, values, spot, number, &edge, sum)?;
    }
    Ok(sum)
}

/// What reaches the point along the edges to it.
pub(crate) fn sum_at<D: Domain>(
    alloc: Global,
    graph: &Graph,
    values: &[D],
    spot: Spot,
) -> Result<D, IterErr>
    requires few { graph.now.vars ≤ D.MAX_VARS }
    requires point { spot.point < length graph.now.points }
    requires values { AreValues D.relations graph.now values.now }
    ensures comes { Comes (Sum D.relations graph.now (spot_of spot)
        (λ q. slice_index_or values.now q (D.relations.bottom graph.now.vars))) result }
    ensures vars { IfOk result (λ n. D.relations.vars n ≡ graph.now.vars) }
{
    let vars = graph.vars();
    match begin(alloc, graph, spot.point) {
        Ok(begun) => {
            let edges = graph.edges().as_slice();
            let into = graph.edges_into(spot.point);
            add_edges(alloc, vars, values, spot, edges, into, begun)
        }
        Err(error) => Err(error),
    }
}
