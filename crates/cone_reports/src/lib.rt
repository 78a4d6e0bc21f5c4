//! Cones as sets of states of a program, and reports that say a cone for each of its points. It has no code: `specs/`
//! says what a reader has to believe, one notion a file, and `proofs/` has the lemmas, generic over any semiring whose
//! finite elements are the whole numbers. It stands on neither polars nor hypergraphs, nor on an analysis, and so does
//! whoever checks a report by it.
//!
//! Read `specs/` in this order. A state is a vector with the one in front (`Vectors`); the terms of a program are sides
//! of inequalities (`Sides`), and an operation makes an image of a cone (`Images`). A claim has a truth in ordinary
//! numbers (`Claims`), and it is read as inequalities (`Readings`). A report has rows and printed inequalities for each
//! point and a verdict for each assert (`Asserts`, `Reports`); it is inductive where four conditions hold
//! (`Inductive`). The rows that an edge makes of rows are a list (`EdgeLists`), by which the first condition that fails
//! is told (`Verdicts`).
//!
//! What an inductive report says is true at every visit of every run (`proofs/Reports`), the list of an edge generates
//! the image (`proofs/EdgeLists`), and a report has one verdict at most (`proofs/OneVerdict`).
#![tactic(auto)]
