//! Zones in lists as the values of an analysis. It has no code: `specs/Zones` has the values, each with the zone that
//! it stands for, and the relations of the domain, which are those of the zones; `proofs/Laws` shows that they keep
//! every law of a domain, and `proofs/Inclusion` that images and joins grow with the values.
#![tactic(auto)]
