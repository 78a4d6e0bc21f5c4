// Tests by tables.
mod analyses;
mod bounds;
mod claims;
mod inequalities;
mod reading;
mod verdicts;
