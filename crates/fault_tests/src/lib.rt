//! Texts and command words at fault, with the exact line that [`tplib_cmd::run`] writes for each.
#![tactic(auto)]

#[cfg(test)]
mod tests;
