//! What tests share that makes no run: rows and inequalities that are written as texts, rows and sets shown as such texts,
//! how a text is compared with the wanted one, and draws that are the same in every run.
#![tactic(auto)]

mod compared;
mod draws;
mod shown;
mod spans;
mod written;

pub use compared::same_text;
pub use draws::Draws;
pub use shown::{element_text, members_text, row_text, rows_text};
pub use spans::{gap_text, span_text};
pub use written::{inequality_of, row_of, rows_of, system_of};
