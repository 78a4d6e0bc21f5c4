//! What a command is answered with, before anything is written: a [`Reply`], or a [`Refusal`] with its cause; and the
//! texts of causes on standard error.
//!
//! `specs/Meaning` says what a command means: what its input says, which faults it may have, what the answer is, and
//! where the computation stops. Each command's layer promises its answer by one such meaning, and the top call adds the
//! streams.
#![tactic(auto)]

mod fault_text;
mod refusal;
mod stop;
mod stop_text;
mod writing;

pub use fault_text::write_fault;
pub use refusal::{Refusal, Reply};
pub use stop::{Part, Place, Stop};
pub use stop_text::write_stop;
