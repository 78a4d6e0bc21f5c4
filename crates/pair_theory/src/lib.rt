//! Pairs of whole numbers in lexicographic order as a semiring: definitions and laws, no code.
//!
//! The first part of a fourth semiring. It gives the operations, as an ordered group with an element below all others,
//! and proves what the trait `Scalar` asks; `pair_scalar` has the type and its tests.
#![tactic(auto)]
