//! Lemmas on decisions, counts and lists that no tropical word needs. It has no code and no definition that a contract
//! cites.
#![tactic(auto)]
