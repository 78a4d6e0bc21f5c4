//! Cones and systems that are drawn: meets and guards beside the systems of all their inequalities, in each of the three
//! semirings, and samples that were worked out by hand. Nothing stands on this crate.
#![tactic(auto)]

#[cfg(test)]
mod drawn;
#[cfg(test)]
mod draws;
#[cfg(test)]
mod samples;
