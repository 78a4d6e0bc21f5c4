//! A second domain beside tropical polyhedra, which shows that the trait is enough to write one, and analyses of small
//! programs by it. Nothing stands on this crate.
#![tactic(auto)]

mod first_zero;
mod known;
#[cfg(test)]
mod tests;

pub use first_zero::FirstZero;
pub use known::Known;
