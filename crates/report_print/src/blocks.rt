//! The block of each point.
ghost use Rattle.std.specs.Prelude.{◌≡◌, ◌<◌, ◌≤◌, ◌+◌, ◌++◌, Some, All, map, length, slice_get, OnOk};
ghost use Rattle.prog_theory.specs.Graph.{points};
ghost use Rattle.prog_theory.specs.Named.{nameless};
ghost use Rattle.prog_graph.specs.Views.{point_of};
ghost use Rattle.report_value.specs.Views.{parts_of};
ghost use Rattle.report_lines.specs.Texts.{point_line};
ghost use Rattle.report_print.specs.Texts.{part_text, blocks_text};

use crate::NoMemory;
use crate::lines::{push_inequalities, push_rows};
use prog_graph::Point;
use report_lines::push_point;
use report_value::{PointPart, Report};
use trop_spelling::Spelling;
use trop_text::Names;

// The lines behind the first.
fn push_part<S: Spelling>(
    text: &mut Vec<u8>,
    names: &Names,
    part: &PointPart<S>,
) -> Result<(), NoMemory>
    requires { part.now.invs.n ≡ length names.now + 1 }
    ensures { OnOk result (text.new.items ≡ text.old.items
        ++ part_text S.KIND S.numbering names.now part.now.rows.rows part.now.invs.inequalities) }
{
    if part.rows.len() == 0 {
        return text.extend_from_slice(b"unreachable\n");
    }
    push_rows(text, &part.rows)?;
    push_inequalities(text, names, &part.invs)
}

// What is said of the point with the number `k`.
fn part_at<S: Spelling>(parts: &[PointPart<S>], k: usize) -> &PointPart<S>
    requires { k < length parts.now }
    ensures { slice_get parts.now k ≡ Some result.now }
{
    &parts[k]
}

// The block of the point with the number `k`.
fn push_block<S: Spelling>(
    text: &mut Vec<u8>,
    names: &Names,
    points: &[Point],
    parts: &[PointPart<S>],
    k: usize,
) -> Result<(), NoMemory>
    requires wide { All (λ p. p.invs.n ≡ length names.now + 1) parts.now }
    requires point { k < length points.now }
    requires part { k < length parts.now }
    requires few { length points.now ≤ 65536 }
    ensures { (p : _) → (x : _) → slice_get points.now k ≡ Some p → slice_get parts.now k ≡ Some x →
        OnOk result (text.new.items ≡ text.old.items ++ (point_line k (point_of p)
        ++ part_text S.KIND S.numbering names.now x.rows.rows x.invs.inequalities)) }
{
    push_point(text, k as u32, points[k])?;
    push_part(text, names, part_at(parts, k))
}

// The blocks of points, by their numbers from 0.
fn push_parts<S: Spelling>(
    text: &mut Vec<u8>,
    names: &Names,
    points: &[Point],
    parts: &[PointPart<S>],
) -> Result<(), NoMemory>
    requires wide { All (λ p. p.invs.n ≡ length names.now + 1) parts.now }
    requires each { length parts.now ≡ length points.now }
    requires few { length points.now ≤ 65536 }
    ensures { OnOk result (text.new.items ≡ text.old.items
        ++ blocks_text S.KIND S.numbering names.now 0 (map point_of points.now) (parts_of parts.now)) }
{
    for k in 0..parts.len() {
        push_block(text, names, points, parts, k)?;
    }
    Ok(())
}

/// Appends the block of each point.
pub(crate) fn push_blocks<S: Spelling>(
    text: &mut Vec<u8>,
    report: &Report<S>,
) -> Result<(), NoMemory>
    ensures { OnOk result (text.new.items ≡ text.old.items ++ blocks_text S.KIND S.numbering
        report.now.program.names 0 (points (nameless report.now.program)) report.now.parts) }
{
    let points = report.graph().points().as_slice();
    push_parts(text, report.program().names(), points, report.parts())
}
