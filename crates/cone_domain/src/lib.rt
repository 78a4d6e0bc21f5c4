//! Tropical polyhedra as a domain of an analysis. It has no code: `specs/` says what a reader has to believe, one
//! notion a file, and `proofs/` has the lemmas, generic over any semiring whose finite elements are the whole numbers.
//!
//! A value is a cone, as its canonical list, and from its first widening on the list of inequalities that was kept
//! (`Values`). The operations give images, joins and widenings (`Operations`); a call is refused at its first part
//! that has too many rows or too large numbers (`Refused`); together they are the domain (`Polyhedra`).
//!
//! It keeps every law of a domain (`proofs/Laws`). Images and joins grow with the values, so that the end of an
//! analysis is inductive, behind narrowing passes too (`proofs/Inclusion`). The report of what an analysis gives
//! (`Reports`) is an inductive report (`proofs/Reports`).
#![tactic(auto)]
