//! The report of a program's family.
ghost use Rattle.std.specs.Prelude.{◌≡◌, ◌≤◌, IfOk, IfErr};
ghost use Rattle.prog_theory.specs.Each.{EachClaims};
ghost use Rattle.cone_reports.specs.Readings.{SuitsWords};
ghost use Rattle.tplib_analyze.specs.Made.{IsReportMade, IsReportRefusal};

use crate::part::parts;
use dom_poly::PolyDomain;
use dom_verdicts::verdicts;
use prog_graph::build;
use prog_tree::Program;
use report_value::Report;
use std::alloc::Global;
use tplib_family::family;
use tplib_reply::Refusal;
use trop_scalar::Numeric;

/// The report of the program's family in the semiring.
pub(crate) fn report<S: Numeric>(
    alloc: Global,
    program: Program,
    delay: u32,
    narrow: u32,
) -> Result<Report<S>, Refusal>
    requires delay { delay ≤ 1000 }
    requires narrow { narrow ≤ 100 }
    requires suits { EachClaims (SuitsWords S.REVERSED) program.body }
    ensures made { IfOk result (IsReportMade S.ring S.numbering S.REVERSED delay narrow program) }
    ensures refused { IfErr result (IsReportRefusal S.ring S.numbering S.REVERSED delay narrow program) }
{
    prove!(program.vars() <= 63);
    let graph = build(alloc, &program)?;
    let family = family::<PolyDomain<S>>(alloc, &graph, delay, narrow)?;
    let values = family.values.as_slice();
    let parts = parts(alloc, values)?;
    let verdicts = verdicts(alloc, &program, values)?;
    Ok(Report::new(
        delay,
        narrow,
        family.passes,
        program,
        graph,
        parts,
        verdicts,
    ))
}
