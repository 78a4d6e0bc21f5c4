//! The top call: [`run`] runs a command over a source and two sinks, and its contract is what the whole library
//! promises.
//!
//! What a command means is said by its layer, and `specs/Commands` names the meaning of each; how a run ends, by
//! `specs/Ends`, case by case on the [`Status`]. A further command is a case in each definition of `specs/Commands`, an
//! arm in `answer`, and its layer.
#![tactic(auto)]

mod answer;
mod command;
mod input;
mod report;
mod status;
mod top;

pub use status::Status;
pub use top::run;
pub use tplib_reply::{Part, Place, Stop};
