//! What a user may ask for.
use thiserror::Error;

/// By which domain a program is analysed.
#[derive(Clone, Copy, Debug, PartialEq, Eq)]
pub enum Mode {
    /// Tropical polyhedra by maximum and sum.
    Max,
    /// Tropical polyhedra by minimum and sum.
    Min,
    /// Tropical polyhedra by maximum and sum over the variables and their opposites.
    Mixed,
    /// Zones: bounds of the differences of two variables, and of variables.
    Zone,
}

/// What a user may ask for.
#[derive(Clone, Copy, Debug, PartialEq, Eq)]
pub enum Command<'a> {
    /// The canonical list of the combinations of rows.
    Reduce,
    /// The canonical list of the solutions of inequalities.
    Ext,
    /// The inequalities whose solutions are the combinations of rows; where `lean`, those of them that stay when, one
    /// after another, each that follows from the rest is dropped, with rows that show it.
    Int { lean: bool },
    /// The tangent hypergraph of a system at a row.
    Tangent,
    /// Whether one cone lies in another.
    Include,
    /// Whether two cones are equal.
    Equal,
    /// The join of two cones.
    Join,
    /// The meet of two cones.
    Meet,
    /// The cone without what it says of one variable, by its name of at most 32 bytes.
    Forget { var: &'a str },
    /// One run of a program, of at most `turns` steps, 0 to 10,000.
    Trace { turns: u32 },
    /// The invariants of a program. The first `delay` changes of a loop's head, 0 to 1,000, are joins; `narrow`
    /// descending passes, 0 to 100, follow.
    Analyze { mode: Mode, delay: u32, narrow: u32 },
    /// Whether a report is inductive.
    Check,
    /// The sizes of a system of `rows` inequalities, 0 to 1,024, in `vars` variables, 1 to 31, made from `seed`, below
    /// 2^31.
    Sample { seed: u32, vars: u32, rows: u32 },
}

/// The words spell no command.
#[derive(Clone, Copy, Debug, PartialEq, Eq, Error)]
#[error("bad words")]
pub struct BadWords;
