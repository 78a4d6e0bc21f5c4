//! Programs and trace files as text: their readers. What they spell, and which fault is the first, stands in `prog_texts`.
#![tactic(auto)]

mod declaration;
mod part;
mod placed;
mod program;
mod rows;
mod statements;
mod traces;
mod verbs;

pub use part::{program_front, read_program_part};
pub use prog_reading::AssertRule;
pub use prog_tree::{
    Block, Claim, Cmp, Cond, CondShape, Numbers, Program, Rel, Side, SideWord, Stmt, Term, Terms,
};
pub use program::read_program;
pub use traces::{TraceFile, read_trace_file};
