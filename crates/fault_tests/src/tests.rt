//! Tables of texts and of runs, a file a kind of input or of fault.
mod at_faults;
mod bad_words;
mod gens_faults;
mod ineqs_faults;
