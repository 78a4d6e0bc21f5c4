//! Tables of texts and of runs, a file a kind of input or of fault.
mod at_answers;
mod gens_answers;
mod ineqs_answers;
mod lean_answers;
mod op_answers;
mod sample_answers;
mod trace_answers;
