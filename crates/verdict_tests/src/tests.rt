// Tests by tables.
mod claims;
mod verdicts;
