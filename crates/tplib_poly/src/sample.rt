//! The command `sample`: the sizes of a sample and of both descriptions of its solutions.
ghost use Rattle.std.specs.Prelude.{◌≡◌, ◌≤◌, ◌<◌, ◌^◌, ◌++◌, [], OnOk, IfOk, IfErr, max};
ghost use Rattle.tplib_reply.specs.Meaning.{IsReply, IsRefused};
ghost use Rattle.tplib_poly.specs.Sample.{number_line, sample_lines, sample_meaning};

use crate::refusal::refusal;
use itoa::Buffer;
use std::alloc::{AllocError, Global};
use tplib_reply::{Refusal, Reply};
use trop_poly::Poly;
use trop_row::system_size;
use trop_sample::make;

/// The number of variables and of inequalities of the sample of this seed, the lengths of the canonical and of the
/// external list of its solutions, and the greatest size of a number in these, a line each. It has no input.
///
/// Errors: `Limit` at the first so many inequalities, or at the polar where the external list stops; want of memory.
pub fn sample_reply(alloc: Global, seed: u32, vars: u32, rows: u32) -> Result<Reply, Refusal>
    requires seed { seed < 2 ^ 31 }
    requires at_least { 1 ≤ vars }
    requires at_most { vars ≤ 31 }
    requires rows { rows ≤ 1024 }
    ensures reply { IfOk result (IsReply (sample_meaning seed vars rows) []) }
    ensures refused { IfErr result (IsRefused (sample_meaning seed vars rows) []) }
{
    let system = make(alloc, seed, vars, rows)?;
    let cone = match Poly::from_system(alloc, &system) {
        Ok(cone) => cone,
        Err(e) => return Err(refusal(e)),
    };
    let bounds = match cone.external(alloc) {
        Ok(bounds) => bounds,
        Err(e) => return Err(refusal(e)),
    };
    let largest = greater(cone.size(), system_size(bounds.as_slice()));
    let text = sample_text(alloc, vars, rows, cone.rows().len(), bounds.len(), largest)?;
    Ok(Reply { yes: true, text })
}

// The greater of the two.
fn greater(a: u64, b: u64) -> u64
    ensures { result ≡ max a b }
{
    if a < b { b } else { a }
}

// The lines of a sample.
fn sample_text(
    alloc: Global,
    vars: u32,
    rows: u32,
    generators: u32,
    bounds: u32,
    largest: u64,
) -> Result<Vec<u8>, AllocError>
    ensures { IfOk result (λ text. text.items ≡ sample_lines vars rows generators bounds largest) }
{
    let mut text = Vec::new(alloc);
    push_line(&mut text, b"vars ", u64::from(vars))?;
    push_line(&mut text, b"inequalities ", u64::from(rows))?;
    push_line(&mut text, b"generators ", u64::from(generators))?;
    push_line(&mut text, b"external ", u64::from(bounds))?;
    push_line(&mut text, b"largest ", largest)?;
    Ok(text)
}

// Appends a line of words and a number.
fn push_line(text: &mut Vec<u8>, words: &[u8], n: u64) -> Result<(), AllocError>
    ensures { OnOk result (text.new.items ≡ text.old.items ++ number_line words.now n) }
{
    text.extend_from_slice(words)?;
    let mut buffer = Buffer::new();
    text.extend_from_slice(buffer.format(n).as_bytes())?;
    text.push(b'\n')?;
    Ok(())
}
