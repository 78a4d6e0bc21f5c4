//! The theory of tropical vectors and cones. It has no code: `specs/` says what a reader has to believe, one
//! notion a file, and `proofs/` has the lemmas, generic over any semiring that has the laws.
#![tactic(auto)]
