//! The block of each point.
ghost use Rattle.std.specs.Prelude.{◌≡◌, ◌<◌, ◌≤◌, ◌++◌, Some, map, length, slice_get, OnOk, Vec};
ghost use Rattle.prog_theory.specs.Graph.{points};
ghost use Rattle.prog_graph.specs.Views.{point_of};
ghost use Rattle.report_lines.specs.Texts.{point_line};
ghost use Rattle.short_texts.specs.Short.{short_blocks};
ghost use Rattle.short_print.specs.Blocks.{texts_of};

use crate::NoMemory;
use prog_graph::Point;
use report_lines::push_point;

// The block of the point with the number `k`.
fn push_block(
    text: &mut Vec<u8>,
    points: &[Point],
    blocks: &[Vec<u8>],
    k: usize,
) -> Result<(), NoMemory>
    requires point { k < length points.now }
    requires block { k < length blocks.now }
    requires few { length points.now ≤ 65536 }
    ensures { (p : _) → (b : _) → slice_get points.now k ≡ Some p → slice_get blocks.now k ≡ Some b →
        OnOk result (text.new.items ≡ text.old.items ++ (point_line k (point_of p) ++ b.items)) }
{
    push_point(text, k as u32, points[k])?;
    text.extend_from_slice(&blocks[k])
}

/// Appends the blocks of points, by their numbers from 0.
pub(crate) fn push_blocks(
    text: &mut Vec<u8>,
    points: &[Point],
    blocks: &[Vec<u8>],
) -> Result<(), NoMemory>
    requires each { length blocks.now ≡ length points.now }
    requires few { length points.now ≤ 65536 }
    ensures { OnOk result (text.new.items ≡ text.old.items
        ++ short_blocks 0 (map point_of points.now) (texts_of blocks.now)) }
{
    for k in 0..blocks.len() {
        push_block(text, points, blocks, k)?;
    }
    Ok(())
}
