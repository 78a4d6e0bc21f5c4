//! Tropical polyhedra as a domain of an analysis, over every semiring of numbers (Allamigeon, Gaubert, Goubault,
//! Inferring min and max invariants using max-plus polyhedra, 2008): a value is a cone with at most 4,096 rows of
//! numbers up to 2^40, and from its first widening on the list of inequalities that was kept. Images, joins and
//! widenings are exact, or refused at the first part that is over the limit or out of range.
#![tactic(auto)]

mod answers;
mod copying;
mod domain;
mod image;
mod judging;
mod laws;
mod value;
mod widening;

pub use laws::images_grow;
pub use value::PolyDomain;
