//! The lists of a control graph.

ghost use Rattle.std.specs.Prelude.{◌≡◌, ◌<◌, ◌∷◌, ◌++◌, [], Some, map, length, slice_get, OnOk, OnErr};
ghost use Rattle.prog_graph.specs.Views.{point_of, edge_of};

use crate::NoMemory;
use crate::parts::{Edge, Point};
use std::alloc::Global;
use std::marker::Model;

/// A list of points.
#[derive(Drop)]
pub struct Points {
    pub(crate) items: Vec<Point>,
}

impl Model for Points {
    ghost use Rattle.std.specs.Prelude.{List, map};
    ghost use Rattle.prog_theory.specs.Graph as graph;
    ghost use Rattle.prog_graph.specs.Views.{point_of};

    ghost Value = { List graph.Point };

    ghost view = { λ p. map point_of p.items.items };
}

impl Points {
    /// No point.
    pub fn new(alloc: Global) -> Points
        ensures { result ≡ [] }
    {
        Points {
            items: Vec::new(alloc),
        }
    }

    /// Appends a point. Want of memory leaves the list as it was.
    pub fn push(&mut self, item: Point) -> Result<(), NoMemory>
        ensures added { OnOk result (self.new ≡ self.old ++ point_of item ∷ []) }
        ensures unchanged { OnErr result (self.new ≡ self.old) }
    {
        self.items.push(item)?;
        Ok(())
    }

    /// The number of points.
    pub fn len(&self) -> usize
        ensures { result ≡ length self.now }
    {
        self.items.len()
    }

    /// The point at a place, from 0.
    pub fn get(&self, k: usize) -> &Point
        requires { k < length self.now }
        ensures { slice_get self.now k ≡ Some (point_of result.now) }
    {
        &self.items[k]
    }

    /// The points in order.
    pub fn as_slice(&self) -> &[Point]
        ensures { map point_of result.now ≡ self.now }
    {
        self.items.as_slice()
    }
}

/// A list of edges.
#[derive(Drop)]
pub struct Edges {
    pub(crate) items: Vec<Edge>,
}

impl Model for Edges {
    ghost use Rattle.std.specs.Prelude.{List, map};
    ghost use Rattle.prog_theory.specs.Edges as graph;
    ghost use Rattle.prog_graph.specs.Views.{edge_of};

    ghost Value = { List graph.Edge };

    ghost view = { λ e. map edge_of e.items.items };
}

impl Edges {
    /// No edge.
    pub fn new(alloc: Global) -> Edges
        ensures { result ≡ [] }
    {
        Edges {
            items: Vec::new(alloc),
        }
    }

    /// Appends an edge. Want of memory leaves the list as it was.
    pub fn push(&mut self, item: Edge) -> Result<(), NoMemory>
        ensures added { OnOk result (self.new ≡ self.old ++ edge_of item ∷ []) }
        ensures unchanged { OnErr result (self.new ≡ self.old) }
    {
        self.items.push(item)?;
        Ok(())
    }

    /// The number of edges.
    pub fn len(&self) -> usize
        ensures { result ≡ length self.now }
    {
        self.items.len()
    }

    /// The edge with a number.
    pub fn get(&self, k: usize) -> &Edge
        requires { k < length self.now }
        ensures { slice_get self.now k ≡ Some (edge_of result.now) }
    {
        &self.items[k]
    }

    /// The edges in order.
    pub fn as_slice(&self) -> &[Edge]
        ensures { map edge_of result.now ≡ self.now }
    {
        self.items.as_slice()
    }
}

/// A list of the numbers of points.
#[derive(Drop)]
pub struct Heads {
    pub(crate) items: Vec<u32>,
}

impl Model for Heads {
    ghost use Rattle.std.specs.Prelude.{List, ℕ};

    ghost Value = { List ℕ };

    ghost view = { λ h. h.items.items };
}

impl Heads {
    /// No head.
    pub fn new(alloc: Global) -> Heads
        ensures { result ≡ [] }
    {
        Heads {
            items: Vec::new(alloc),
        }
    }

    /// Appends a head. Want of memory leaves the list as it was.
    pub fn push(&mut self, item: u32) -> Result<(), NoMemory>
        ensures added { OnOk result (self.new ≡ self.old ++ item ∷ []) }
        ensures unchanged { OnErr result (self.new ≡ self.old) }
    {
        self.items.push(item)?;
        Ok(())
    }

    /// The number of heads.
    pub fn len(&self) -> usize
        ensures { result ≡ length self.now }
    {
        self.items.len()
    }

    /// The head at a place, from 0.
    pub fn get(&self, k: usize) -> &u32
        requires { k < length self.now }
        ensures { slice_get self.now k ≡ Some result.now }
    {
        &self.items[k]
    }

    /// The heads in order.
    pub fn as_slice(&self) -> &[u32]
        ensures { result.now ≡ self.now }
    {
        self.items.as_slice()
    }
}
