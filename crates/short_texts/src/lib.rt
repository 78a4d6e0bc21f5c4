//! The texts of short reports: a head, the program, for each point a block, and for each assert whether its claim is
//! proved. No reader takes them. What a block says of its point is the matter of a domain: here it is a text. It has no
//! code.
#![tactic(auto)]
