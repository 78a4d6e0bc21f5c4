// Tests by tables.
mod analyses;
mod laws;
mod reading;
