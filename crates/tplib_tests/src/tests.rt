//! Tables of texts and of runs, a file a kind of input or of fault.
mod altered;
mod devices;
mod laws;
mod pairs;
mod runs;
