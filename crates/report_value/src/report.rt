//! Reports.
ghost use Rattle.std.specs.Prelude.{◌≡◌, ◌≤◌, ◌<◌, ◌+◌, All, Some, map, length, slice_get};
ghost use Rattle.prog_theory.specs.Graph.{points};
ghost use Rattle.prog_theory.specs.Named.{nameless};
ghost use Rattle.prog_theory.specs.ControlGraphs.{graph_of};
ghost use Rattle.report_texts.specs.Limits.{most_delay, most_narrow, most_passes};
ghost use Rattle.report_texts.specs.Reports.{assert_numbers};
ghost use Rattle.report_value.specs.Views.{part_of, parts_of};
ghost use Rattle.report_value.specs.Kept.{IsPointKept, IsKept};

use crate::parts::PointPart;
use prog_graph::Graph;
use prog_tree::Program;
use std::marker::Model;
use trop_scalar::{MaxInt, MinInt, Scalar};

/// A report over one semiring: the words of the analysis, the number of its passes, the program, for each of its points
/// rows and inequalities, and for each of its asserts whether its claim is proved.
///
/// It keeps that `delay` is at most 1,000, `narrow` at most 100 and `passes` at most 2,039,201; that there is a part for
/// each point and a verdict for each assert of the program; and of each part, that it has at most 4,096 rows and 4,096
/// inequalities in the coordinates of the program, its rows in normal form, none all the zero, with numbers of size at
/// most 2^41, its inequalities with numbers of size at most 2^48, and none where it has no row. Whether what it says is
/// true is not kept.
#[derive(Drop)]
pub struct Report<S: Scalar> {
    delay: u32,
    narrow: u32,
    passes: u64,
    program: Program,
    graph: Graph,
    parts: Vec<PointPart<S>>,
    verdicts: Vec<bool>,
}

impl<S: Scalar> Model for Report<S> {
    ghost use Rattle.report_value.specs.Views.{ReportOver, report_of};

    ghost Value = { ReportOver S };

    ghost use Rattle.report_value.specs.Codes.{coded_report};

    ghost coded = { coded_report S.code };

    ghost use Rattle.report_value.specs.Kept.{IsSound};

    ghost view = { λ r. report_of r.delay r.narrow r.passes r.program r.parts.items r.verdicts.items };

    ghost invariant = { λ r. IsSound S.ring S.numbering r.delay r.narrow r.passes r.program r.graph r.parts.items r.verdicts.items };
}

impl<S: Scalar> Report<S> {
    /// The report with these words of the analysis, this number of passes, the program with its control graph, its
    /// parts by the numbers of points, and its verdicts by the order of asserts, true for proved.
    pub fn new(
        delay: u32,
        narrow: u32,
        passes: u64,
        program: Program,
        graph: Graph,
        parts: Vec<PointPart<S>>,
        verdicts: Vec<bool>,
    ) -> Report<S>
        requires delay { delay ≤ most_delay }
        requires narrow { narrow ≤ most_narrow }
        requires passes { passes ≤ most_passes }
        requires graph { graph ≡ graph_of (nameless program) }
        requires parts { All (IsPointKept S.ring S.numbering (length program.names + 1)) parts.items }
        requires points { length parts.items ≡ length (points (nameless program)) }
        requires asserts { length verdicts.items ≡ length (assert_numbers program) }
        ensures { result ≡ record {
          delay = delay;
          narrow = narrow;
          passes = passes;
          program = program;
          parts = parts_of parts.items;
          verdicts = verdicts.items;
        } }
    {
        let _keeps = program.vars();
        Report {
            delay,
            narrow,
            passes,
            program,
            graph,
            parts,
            verdicts,
        }
    }

    /// The delay of the analysis: how often each head is joined before it is widened.
    pub fn delay(&self) -> u32
        ensures value { result ≡ self.now.delay }
        ensures keeps { IsKept S.ring S.numbering self.now }
    {
        self.delay
    }

    /// The number of narrowing passes that the analysis made after its end.
    pub fn narrow(&self) -> u32
        ensures value { result ≡ self.now.narrow }
        ensures keeps { IsKept S.ring S.numbering self.now }
    {
        self.narrow
    }

    /// The number of passes up to the end, without the narrowing ones.
    pub fn passes(&self) -> u64
        ensures value { result ≡ self.now.passes }
        ensures keeps { IsKept S.ring S.numbering self.now }
    {
        self.passes
    }

    /// The program.
    pub fn program(&self) -> &Program
        ensures value { result.now ≡ self.now.program }
        ensures keeps { IsKept S.ring S.numbering self.now }
    {
        &self.program
    }

    /// The control graph of the program.
    pub fn graph(&self) -> &Graph
        ensures value { result.now ≡ graph_of (nameless self.now.program) }
        ensures keeps { IsKept S.ring S.numbering self.now }
    {
        &self.graph
    }

    /// The parts, by the numbers of points.
    pub fn parts(&self) -> &[PointPart<S>]
        ensures value { parts_of result.now ≡ self.now.parts }
        ensures each { All (IsPointKept S.ring S.numbering (length self.now.program.names + 1)) result.now }
        ensures keeps { IsKept S.ring S.numbering self.now }
    {
        self.parts.as_slice()
    }

    /// The part of a point.
    pub fn part(&self, point: u32) -> &PointPart<S>
        requires { point < length self.now.parts }
        ensures value { slice_get self.now.parts point ≡ Some (part_of result.now) }
        ensures kept { IsPointKept S.ring S.numbering (length self.now.program.names + 1) result.now }
        ensures keeps { IsKept S.ring S.numbering self.now }
    {
        &self.parts[point as usize]
    }

    /// The verdicts, by the order of asserts: true for proved.
    pub fn verdicts(&self) -> &[bool]
        ensures value { result.now ≡ self.now.verdicts }
        ensures keeps { IsKept S.ring S.numbering self.now }
    {
        self.verdicts.as_slice()
    }
}

/// A report over either semiring of numbers.
#[derive(Drop)]
pub enum AnyReport {
    /// Over max-plus numbers.
    Max(Report<MaxInt>),
    /// Over min-plus numbers.
    Min(Report<MinInt>),
}
