//! Directed hypergraphs and the criterion by which a solution of a system is extreme, after Allamigeon, Gaubert and
//! Goubault. It has no code: `specs/` says what a reader has to believe, one notion a file, and `proofs/` has the
//! lemmas, generic over any semiring that has the laws.
#![tactic(auto)]
