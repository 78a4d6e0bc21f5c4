//! The commands on cones that take operations: `int`, `op include`, `op equal`, `op join`, `op meet`, `op forget` and
//! `sample`. Each call answers the bytes of a command's input with a [`Reply`](tplib_reply::Reply), or refuses them for
//! a named cause.
//!
//! What a command means is said in `specs`: once over any semiring (`specs/InRing`), and lifted to the semiring of the
//! file.
#![tactic(auto)]

mod bounds;
mod compare;
mod cone_text;
mod cones;
mod forget;
mod int;
mod kept;
mod pair;
mod refusal;
mod sample;

pub use bounds::bounds_of;
pub use forget::forget_reply;
pub use int::int_reply;
pub use pair::{PairCommand, pair_reply};
pub use sample::sample_reply;
