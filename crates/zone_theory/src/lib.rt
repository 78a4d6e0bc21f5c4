//! Zones: sets of states that are given by bounds of the differences of two variables (difference bound matrices;
//! A. Miné, "A new numerical abstract domain based on difference-bound matrices", 2001). It has no code: `specs/` says
//! what a reader has to believe, one notion a file, and `proofs/` shows that each operation is exact.
//!
//! A matrix bounds the differences of any two coordinates, of which coordinate 0 is always 0 (`Bounds`, `Matrices`).
//! The closed matrix of a set of states has the least bounds that its states keep (`Closed`); a matrix is closed of its
//! own zone exactly where no two bounds give a smaller one together (`Shortest`, `proofs/Closing`). One more bound
//! (`Adding`), a forgotten variable (`Forgetting`), an assigned one (`Assigning`) and a join (`Joining`) keep this, and
//! give exactly the image, or the least zone that has both (`Zones`, `proofs/Images`). A widening keeps the bounds that
//! still hold and never those that follow from them (`Widening`, `Width`).
//!
//! Zones are a domain of an analysis (`Domain`, `Relations`) that keeps every law (`proofs/Laws`), and its end is
//! inductive, behind narrowing passes too (`proofs/Inclusion`). A claim is proved by pairs of terms (`Claims`), and is
//! then true at each state (`proofs/Claims`). A zone is a set of inequalities between two scaled coordinates
//! (`Embedding`).
#![tactic(auto)]
