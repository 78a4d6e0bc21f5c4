//! The short report of a program's family, as text.
ghost use Rattle.std.specs.Prelude.{◌≡◌, ◌≤◌, ℕ, length, IfOk, IfErr, OnOk};
ghost use Rattle.tplib_reply.specs.Meaning.{Cause};
ghost use Rattle.tplib_reply.specs.declared.stop.Stop.{Stop};
ghost use Rattle.tplib_family.specs.Stops.{IsListedStop};
ghost use Rattle.trop_theory.specs.MaxPlus.{max_ring, max_numbering};
ghost use Rattle.mixed_theory.specs.Mixed.{mixed};
ghost use Rattle.mixed_print.specs.Said.{IsListStop};
ghost use Rattle.tplib_mixed.specs.Fault.{most_variables};
ghost use Rattle.tplib_mixed.specs.Mixed.{IsMixedReport};
ghost use Rattle.tplib_mixed.specs.Refusals.{refusal_of, IsReportRefusal};

use dom_mixed::MixedDomain;
use mixed_print::{MixedErr, print_mixed};
use prog_graph::build;
use prog_tree::Program;
use std::alloc::Global;
use tplib_family::family;
use tplib_reply::{Refusal, Stop};

// Why there is no text.
fn unprinted(e: MixedErr) -> Refusal
    ensures { result ≡ refusal_of e }
{
    match e {
        MixedErr::Polar(point, i, rows) => Refusal::Limit(Stop::PointPolar(point, i, rows)),
        MixedErr::NoMemory => Refusal::NoMemory,
    }
}

/// The short report of the program's family over its variables and their opposites.
pub(crate) fn report_text(
    alloc: Global,
    program: &Program,
    delay: u32,
    narrow: u32,
) -> Result<Vec<u8>, Refusal>
    requires few { length program.now.names ≤ most_variables }
    requires delay { delay ≤ 1000 }
    requires narrow { narrow ≤ 100 }
    ensures text { IfOk result (λ text. IsMixedReport delay narrow program.now text.items) }
    ensures unstopped { OnOk result ((cause : Cause) → (stop : Stop) →
        IsListedStop (mixed max_ring max_numbering) IsListStop delay narrow program.now cause stop → ⊥) }
    ensures refused { IfErr result (IsReportRefusal delay narrow program.now) }
{
    // The names tell what every program keeps.
    let _names = program.names();
    let graph = build(alloc, program)?;
    let family = family::<MixedDomain>(alloc, &graph, delay, narrow)?;
    let values = family.values.as_slice();
    match print_mixed(alloc, program, &graph, delay, narrow, family.passes, values) {
        Ok(text) => Ok(text),
        Err(e) => Err(unprinted(e)),
    }
}
