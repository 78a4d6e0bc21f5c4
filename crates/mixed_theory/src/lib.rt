//! Tropical polyhedra over variables and their opposites: a domain whose values mix maxima and minima
//! (X. Allamigeon, S. Gaubert, E. Goubault, "Inferring min and max invariants using max-plus polyhedra", 2008). It has
//! no code: `specs/` says what a reader has to believe, one notion a file, and `proofs/` has the lemmas.
//!
//! A state is doubled by the opposites of its numbers (`Twins`). A value on so many variables is a polyhedron on twice
//! as many, in the order of numbers, and its states are those whose doubled state it has. An operation is an image of
//! that polyhedron in two halves, one on the variables and one on their opposites (`Halves`); joins, inclusion and
//! widenings are those of polyhedra (`Mixed`). A claim is proved by its sides, by the opposites of its sides, or by
//! pairs of their terms (`Claims`).
//!
//! It keeps every law of a domain (`proofs/Laws`), its images and joins grow with the values (`proofs/Inclusion`), and
//! a claim that a value proves is true at each of its states (`proofs/Claims`).
#![tactic(auto)]
