//! Cones: sets of vectors closed under sums and multiples. Sets of vectors made from sets, and the operations on cones
//! that are given by rows; inclusion and validity by rows; the minimal rows of a list; where a cone made by one
//! inequality after another passes the limit. It has no code: `specs/` says what a reader has to believe, one notion a
//! file, and `proofs/` has the lemmas, generic over any semiring that has the laws. It stands on neither hypergraphs
//! nor polars.
#![tactic(auto)]
