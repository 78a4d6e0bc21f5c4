//! The command `ext`: the canonical list of the solutions of inequalities, which are taken line by line.
ghost use Rattle.std.specs.Prelude.{◌≡◌, ◌+◌, ◌≤◌, ◌^◌, ℕ, [], length, take, OnOk, IfOk, IfErr};
ghost use Rattle.trop_theory.specs.Inequalities.{Solves};
ghost use Rattle.trop_theory.specs.Canonical.{IsOverLimit};
ghost use Rattle.trop_cones.specs.RowStops.{IsRowsStop};
ghost use Rattle.trop_dd.specs.Description.{Describes};
ghost use Rattle.trop_text.specs.Pieces.{pieces_of};
ghost use Rattle.trop_files.specs.InequalityFiles.{Systems, SpellsInequalities};
ghost use Rattle.tplib_reply.specs.Meaning.{IsReply, IsRefused};
ghost use Rattle.tplib_cones.specs.Ext.{ext_meaning};

use std::alloc::Global;
use tplib_reply::{Refusal, Reply, Stop};
use trop_dd::{Conversion, DdErr};
use trop_files::{AnyIneqLines, IneqLines, Spelling, open_ineqs, print_gens};
use trop_hyper::Looks;

/// The file of the canonical list of the solutions of the inequalities that the bytes spell.
///
/// Errors: the first fault of the bytes as a file of inequalities, also where it stands behind the inequality at which
/// the limit is passed; `Limit` at the first so many inequalities; want of memory.
pub fn ext_reply(alloc: Global, bytes: &[u8]) -> Result<Reply, Refusal>
    requires short { length bytes.now ≤ 2 ^ 31 }
    ensures reply { IfOk result (IsReply ext_meaning bytes.now) }
    ensures refused { IfErr result (IsRefused ext_meaning bytes.now) }
{
    match open_ineqs(alloc, bytes) {
        Ok(AnyIneqLines::Max(mut lines)) => converted(alloc, &mut lines),
        Ok(AnyIneqLines::Min(mut lines)) => converted(alloc, &mut lines),
        Ok(AnyIneqLines::Bool(mut lines)) => converted(alloc, &mut lines),
        Err(e) => Err(Refusal::from(e)),
    }
}

// The file of the solutions of the inequalities, line by line.
fn converted<S: Spelling>(alloc: Global, lines: &mut IneqLines<'_, S>) -> Result<Reply, Refusal>
    requires first { lines.old.given ≡ [] }
    ensures reply { IfOk result (IsReply ext_meaning lines.old.bytes) }
    ensures refused { IfErr result (IsRefused ext_meaning lines.old.bytes) }
{
    let n = lines.names().len() + 1;
    let mut conversion = Conversion::new(alloc, n)?;
    push_lines(alloc, lines, &mut conversion)?;
    let rows = conversion.rows(alloc)?;
    drop(conversion);
    let text = print_gens(alloc, lines.names(), &rows)?;
    Ok(Reply { yes: true, text })
}

// Pushes the inequalities of all lines, one after another, to the whole space.
fn push_lines<S: Spelling>(
    alloc: Global,
    lines: &mut IneqLines<'_, S>,
    conversion: &mut Conversion<S>,
) -> Result<(), Refusal>
    requires first { lines.old.given ≡ [] }
    requires empty { conversion.old.system ≡ [] }
    requires described { Describes S.ring conversion.old.n [] conversion.old.rows }
    requires width { conversion.old.n ≡ length lines.old.names + 1 }
    ensures spelled { OnOk result (SpellsInequalities
        (pieces_of lines.old.bytes) record {
          names = lines.old.names;
          inequalities =
              S.three.over Systems conversion.new.system;
        }) }
    ensures within { OnOk result ((j : ℕ) → j ≤ length conversion.new.system →
        IsOverLimit S.ring (Solves S.ring conversion.old.n (take j conversion.new.system)) → ⊥) }
    ensures refused { IfErr result (IsRefused ext_meaning lines.old.bytes) }
    ensures width { OnOk result (conversion.new.n ≡ conversion.old.n) }
    ensures names { OnOk result (lines.new.names ≡ lines.old.names) }
{
    let mut looks = Looks::new();
    'lines: loop {
        let ineq = match lines.next(alloc) {
            Ok(Some(ineq)) => ineq,
            Ok(None) => return Ok(()),
            Err(e) => return Err(Refusal::from(e)),
        };
        match conversion.push(alloc, ineq, &mut looks) {
            Ok(()) => {}
            Err(DdErr::Limit(count)) => return Err(stopped(alloc, lines, count)),
            Err(DdErr::NoMemory) => return Err(Refusal::NoMemory),
        }
    }
}

// The refusal where the first inequalities, as many as `count`, have too many extreme rows: a fault of a later line
// goes before it.
fn stopped<S: Spelling>(alloc: Global, lines: &mut IneqLines<'_, S>, count: u32) -> Refusal
    requires { IsRowsStop S.ring (length lines.old.names + 1) lines.old.given count }
    ensures { IsRefused ext_meaning lines.old.bytes result }
{
    'rest: loop {
        match lines.next(alloc) {
            Ok(Some(_)) => {}
            Ok(None) => return Refusal::Limit(Stop::Rows(count)),
            Err(e) => return Refusal::from(e),
        }
    }
}
