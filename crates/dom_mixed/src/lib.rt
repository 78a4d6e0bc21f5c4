//! Tropical polyhedra over variables and their opposites as a domain of an analysis: its values mix maxima and minima.
//! A value on `d` variables is a polyhedron in max on `2d`, whose states are those that lie in it together with the
//! opposites of their numbers. Images are made in two halves, each exact or refused; joins, inclusion and widenings are
//! those of polyhedra.
#![tactic(auto)]

mod domain;
mod image;
mod value;

pub use value::MixedDomain;
