//! The short report of a program's family of zones, as text.
ghost use Rattle.std.specs.Prelude.{◌≤◌, IfOk, IfErr, OnOk};
ghost use Rattle.prog_tree.specs.Programs.{IsProgram};
ghost use Rattle.zone_theory.specs.Relations.{zones};
ghost use Rattle.dom_family.specs.Family.{FamilyOf};
ghost use Rattle.tplib_reply.specs.Meaning.{Cause};
ghost use Rattle.tplib_reply.specs.declared.stop.Stop.{Stop};
ghost use Rattle.tplib_family.specs.Stops.{IsAnalysisStop, IsAnalysisRefusal};
ghost use Rattle.tplib_zone.specs.Zone.{IsZoneText};
ghost use Rattle.tplib_zone.specs.Refusals.{IsZoneRefusal};

use dom_zone::ZoneDomain;
use prog_graph::build;
use prog_tree::Program;
use std::alloc::Global;
use tplib_family::family;
use tplib_reply::Refusal;
use zone_print::print_zone;

/// The short report of the program's family of zones.
pub(crate) fn report_text(
    alloc: Global,
    program: &Program,
    delay: u32,
    narrow: u32,
) -> Result<Vec<u8>, Refusal>
    requires kept { IsProgram program.now }
    requires delay { delay ≤ 1000 }
    requires narrow { narrow ≤ 100 }
    ensures text { IfOk result (λ text. IsZoneText delay narrow program.now text.items) }
    ensures unstopped { OnOk result ((cause : Cause) → (stop : Stop) →
        IsAnalysisStop (FamilyOf zones delay narrow program.now) cause stop → ⊥) }
    ensures refused { IfErr result (IsAnalysisRefusal (FamilyOf zones delay narrow program.now)) }
    ensures kinds { IfErr result IsZoneRefusal }
{
    let graph = build(alloc, program)?;
    let family = family::<ZoneDomain>(alloc, &graph, delay, narrow)?;
    let values = family.values.as_slice();
    let text = print_zone(alloc, program, &graph, delay, narrow, family.passes, values)?;
    Ok(text)
}
