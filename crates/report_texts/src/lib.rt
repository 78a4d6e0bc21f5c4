//! The texts of reports: what they spell, where the first fault stands, and how a report is printed. It has no code.
//! `specs/` has one notion a file, and `proofs/` shows that the reading functions read the grammar, where they stop, and
//! that what is printed is read back.
//!
//! - `Modes`, `Reports`: the value of a report, and what it says of its program.
//! - `Lines`: the lines of a report behind its program. `Bodies`: which lines a report has, in which order.
//! - `LineTexts`, `Heads`, `ProgramParts`, `Texts`: the grammar of each part and, beside it, the function that reads it.
//! - `Progress`: the lines read so far, and which line may stand behind them.
//! - `Faults`: the first fault with its cause. `Printed`: the one text by which a report is printed.
#![tactic(auto)]
