//! The reader of reports. What a report's text spells, and which fault is the first, stands in `report_texts`.
//!
//! - `words`: single tokens. `steps`: steps along pieces. `head`: the lines before the program. `part`: the program up to its `end`.
//! - `lines`: one line behind the program. `place`: where the lines so far end, and which line may follow. `progress`:
//!   what one line more comes to. `body`: all of them.
//! - `asserts`: the numbers of a program's asserts. `parts`: what is said of each point, from the lines.
//! - `read`: the whole.
#![tactic(auto)]

mod asserts;
mod body;
mod head;
mod lines;
mod part;
mod parts;
mod place;
mod progress;
mod read;
mod steps;
mod words;

pub use read::read_report;
