//! A fourth semiring, written by the recipe of README: pairs of whole numbers in lexicographic order. Its operations and
//! laws are in `pair_theory`.
#![tactic(auto)]

mod pair;

pub use pair::Pair;

#[cfg(test)]
mod tests;
