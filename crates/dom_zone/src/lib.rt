//! Zones as a domain of an analysis: a value has the states whose differences of two coordinates keep bounds, each the
//! least that holds, of size at most 2^40. Coordinate 0 has the value 0. A value is the empty zone or a closed matrix
//! of bounds, and from its first widening on the bounds that were kept. Images, joins and widenings are exact, or
//! refused where a bound is out of range.
#![tactic(auto)]

mod claims;
mod domain;
mod embedding;
mod image;
mod value;
mod widening;

pub use value::ZoneDomain;
