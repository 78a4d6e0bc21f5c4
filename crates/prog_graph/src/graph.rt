//! Control graphs.

ghost use Rattle.std.specs.Prelude.{◌≡◌, ◌<◌, ◌↔◌, ℕ, Some, length, slice_get, IfOk};
ghost use Rattle.prog_theory.specs.States.{State};
ghost use Rattle.prog_theory.specs.Named.{nameless};
ghost use Rattle.prog_theory.specs.Visits.{VisitsStatement, VisitsEnd};
ghost use Rattle.prog_theory.specs.Graph as graph;
ghost use Rattle.prog_theory.specs.ControlGraphs as graphs;
ghost use Rattle.prog_theory.specs.ControlGraphs.{graph_of};
ghost use Rattle.prog_theory.specs.GraphKeeps.{IsControlGraph};
ghost use Rattle.prog_theory.specs.Walks.{Reaches};
ghost use Rattle.prog_graph.specs.Into.{numbers_to};

use crate::NoMemory;
use crate::edges::program_edges;
use crate::heads::program_heads;
use crate::into::edges_into;
use crate::lists::{Edges, Heads, Points};
use crate::points::program_points;
use prog_tree::Program;
use std::alloc::Global;
use std::marker::Model;

/// A control graph.
///
/// It keeps that its edges join its points, that each edge that does not go to a head goes to a higher point, that no
/// edge enters a loop but at its head, that its operations are on its variables with numbers of size at most 2^31 + 1,
/// and that it has at most 65,536 points, 65,536 edges and 400 heads.
#[derive(Drop)]
pub struct Graph {
    vars: u32,
    points: Points,
    edges: Edges,
    heads: Heads,
    into: Vec<Vec<u32>>,
}

impl Model for Graph {
    ghost use Rattle.std.specs.Prelude.{map, length};
    ghost use Rattle.prog_theory.specs.ControlGraphs.{ControlGraph};
    ghost use Rattle.prog_graph.specs.Kept.{IsGraph};
    ghost use Rattle.prog_graph.specs.Into.{numbers_of};

    ghost Value = { ControlGraph };

    ghost view = { λ g. record { vars = g.vars; points = g.points; edges = g.edges; heads = g.heads } };

    ghost invariant = { λ g. IsGraph (record { vars = g.vars; points = g.points; edges = g.edges; heads = g.heads }) (numbers_of g.into.items) };
}

impl Graph {
    /// The number of variables.
    pub fn vars(&self) -> u32
        ensures value { result ≡ self.now.vars }
        ensures keeps { IsControlGraph self.now }
    {
        self.vars
    }

    /// The points, by their numbers.
    pub fn points(&self) -> &Points
        ensures value { result.now ≡ self.now.points }
        ensures keeps { IsControlGraph self.now }
    {
        &self.points
    }

    /// The edges, by their numbers.
    pub fn edges(&self) -> &Edges
        ensures value { result.now ≡ self.now.edges }
        ensures keeps { IsControlGraph self.now }
    {
        &self.edges
    }

    /// The heads of loops: the points of `while` statements, ascending.
    pub fn heads(&self) -> &Heads
        ensures value { result.now ≡ self.now.heads }
        ensures keeps { IsControlGraph self.now }
    {
        &self.heads
    }

    /// Whether the point is a head.
    pub fn is_head(&self, point: u32) -> bool
        requires { point < length self.now.points }
        ensures { result ≡ graphs.is_head self.now point }
    {
        self.heads.items.contains(&point)
    }

    /// The numbers of the edges that go to the point, ascending.
    pub fn edges_into(&self, point: u32) -> &[u32]
        requires { point < length self.now.points }
        ensures { result.now ≡ numbers_to point self.now.edges }
    {
        self.into[point as usize].as_slice()
    }
}

/// The control graph of a program. A walk along its edges from point 0, begun at any state, comes to the point of a
/// statement or to the exit with a state exactly where a run of the program visits it with that state.
pub fn build(alloc: Global, program: &Program) -> Result<Graph, NoMemory>
    ensures graph { IfOk result (λ g. g ≡ graph_of (nameless program.now)) }
    ensures keeps { IfOk result (λ g. IsControlGraph g) }
    ensures statements { IfOk result (λ g. (p k : ℕ) (s : State) → slice_get g.points p ≡ Some (graph.Statement k) →
        Reaches g p s ↔ VisitsStatement (nameless program.now) k s) }
    ensures exit { IfOk result (λ g. (p : ℕ) (s : State) → slice_get g.points p ≡ Some graph.Exit → Reaches g p s ↔
        VisitsEnd (nameless program.now) s) }
{
    let body = program.body();
    let items = program_points(alloc, body)?;
    let points = Points { items };
    let edges = program_edges(alloc, body)?;
    let heads = program_heads(alloc, body)?;
    let into = edges_into(alloc, points.len(), &edges)?;
    Ok(Graph {
        vars: program.vars(),
        points,
        edges: Edges { items: edges },
        heads: Heads { items: heads },
        into,
    })
}
