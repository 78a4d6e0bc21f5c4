//! The command `analyze`: the report of the invariant family of a program. It answers the bytes of the command's input
//! with a [`Reply`](tplib_reply::Reply), or refuses them for a named cause.
//!
//! Read `specs/` in this order. The family is what comes of the analysis of the program's control graph by tropical
//! polyhedra (`Family`); an analysis may stop instead (`Stops`). Of a family there is one report (`Defined`). What it says
//! is true at each visit of each run (`Visits`). What the command means stands in `Analyze`. The other pages are for the
//! functions of this crate: how a stop is named (`Stopped`), what is made of one point (`Parts`), and the whole report
//! (`Made`).
#![tactic(auto)]

mod analyze;
mod copying;
mod part;
mod report;
mod stopped;

pub use analyze::{max_reply, min_reply};
