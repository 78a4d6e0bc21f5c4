//! Tables of texts and of runs, a file a kind of input or of fault.
mod counts;
mod groups;
mod plain;
