//! Polars, external lists and the bipolar theorem: a cone that some rows generate is the set of solutions of the
//! inequalities that its polars give. Lists of inequalities of which none is spare. It has no code: `specs/` says what
//! a reader has to believe, one notion a file, and `proofs/` has the lemmas, generic over any semiring that has the
//! laws.
#![tactic(auto)]
