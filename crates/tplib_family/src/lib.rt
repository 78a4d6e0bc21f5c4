//! The family of a program as commands use it: the analysis of its control graph by any domain, whose stop is told as a
//! stop of a command; and what a command means that answers with a short report.
//!
//! `specs/Views` and `specs/Stopped` say what a command's stops stand for, `specs/Stops` where a command on a family
//! stops, and `specs/Short` which text is the short report of a program.
#![tactic(auto)]

mod analysis;

pub use analysis::family;
