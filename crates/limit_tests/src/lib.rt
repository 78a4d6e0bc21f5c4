//! Files with as many lines as may be and one more, cones with as many rows as may be and one more, and drawn systems
//! beside a plain way to their rows.
#![tactic(auto)]

#[cfg(test)]
mod tests;
