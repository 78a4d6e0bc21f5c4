//! Worked examples of types and of the double description, in each of the three semirings. Coordinate 0 is that of
//! constants; then come x, y and z. What is wanted was worked out by hand.
#![tactic(auto)]

#[cfg(test)]
mod descriptions;
#[cfg(test)]
mod tangents;
