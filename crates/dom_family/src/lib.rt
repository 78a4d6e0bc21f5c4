//! The family of a program by any domain: the value of each point of its control graph that an analysis gives, and what
//! holds of it, whatever the domain is. It has no code.
//!
//! A domain shows its laws once (`dom_theory/specs/Laws` and `Inclusion`, and here `Claims`); `proofs/Family` then
//! gives all that `specs/Family` says.
#![tactic(auto)]
