//! Inclusion and equality of two cones.
ghost use Rattle.std.specs.Prelude.{◌≡◌, ◌≤◌, true, false, IfOk};
ghost use Rattle.trop_theory.specs.Vectors.{rows_size};
ghost use Rattle.trop_theory.specs.Sizes.{most_mixed};
ghost use Rattle.trop_poly.specs.Cones.{InCone};
ghost use Rattle.tplib_poly.specs.Pairs.{IsIncludeAnswer, IsEqualAnswer, row_line};

use std::alloc::{AllocError, Global};
use tplib_reply::Reply;
use trop_files::Spelling;
use trop_poly::Poly;
use trop_row::Row;
use trop_spelling::push_row;

// Whether the left cone lies in the right one; else the first row of the left one that does not.
pub fn include_reply<S: Spelling>(
    alloc: Global,
    left: &Poly<S>,
    right: &Poly<S>,
) -> Result<Reply, AllocError>
    requires width { left.now.n ≡ right.now.n }
    requires size { rows_size S.ring left.now.rows ≤ most_mixed }
    requires other_size { rows_size S.ring right.now.rows ≤ most_mixed }
    ensures { IfOk result (λ reply. IsIncludeAnswer S.KIND S.ring S.numbering (InCone S.ring left.now)
        (InCone S.ring right.now) reply.yes reply.text.items) }
{
    match left.first_outside(right) {
        Some(place) => outsider_reply(alloc, b"not included: row ", left.rows().get(place)),
        None => yes_reply(alloc, b"included\n"),
    }
}

// Whether the two cones are equal; else the first row of the left one that is outside of the right one, or of the right
// one outside of the left one.
pub fn equal_reply<S: Spelling>(
    alloc: Global,
    left: &Poly<S>,
    right: &Poly<S>,
) -> Result<Reply, AllocError>
    requires width { left.now.n ≡ right.now.n }
    requires size { rows_size S.ring left.now.rows ≤ most_mixed }
    requires other_size { rows_size S.ring right.now.rows ≤ most_mixed }
    ensures { IfOk result (λ reply. IsEqualAnswer S.KIND S.ring S.numbering (InCone S.ring left.now)
        (InCone S.ring right.now) reply.yes reply.text.items) }
{
    match left.first_outside(right) {
        Some(place) => outsider_reply(alloc, b"not equal: left row ", left.rows().get(place)),
        None => match right.first_outside(left) {
            Some(place) => outsider_reply(alloc, b"not equal: right row ", right.rows().get(place)),
            None => yes_reply(alloc, b"equal\n"),
        },
    }
}

fn yes_reply(alloc: Global, line: &[u8]) -> Result<Reply, AllocError>
    ensures says { IfOk result (λ reply. reply.yes ≡ true) }
    ensures text { IfOk result (λ reply. reply.text.items ≡ line.now) }
{
    let text = Vec::from_slice(alloc, line)?;
    Ok(Reply { yes: true, text })
}

fn outsider_reply<S: Spelling>(
    alloc: Global,
    words: &[u8],
    row: &Row<S>,
) -> Result<Reply, AllocError>
    ensures says { IfOk result (λ reply. reply.yes ≡ false) }
    ensures text { IfOk result (λ reply. reply.text.items ≡ row_line S.KIND S.numbering words.now row.now) }
{
    let mut text = Vec::from_slice(alloc, words)?;
    push_row(&mut text, row.as_slice())?;
    text.push(b'\n')?;
    Ok(Reply { yes: false, text })
}
