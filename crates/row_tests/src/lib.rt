//! Worked examples of elements, rows, lists of rows and hypergraphs. What is wanted was worked out by hand.
#![tactic(auto)]

#[cfg(test)]
mod elements;
#[cfg(test)]
mod hypergraphs;
#[cfg(test)]
mod rows;
