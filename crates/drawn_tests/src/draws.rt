//! Inequalities and systems in four coordinates that are drawn, as texts.
use row_examples::Draws;
use std::alloc::{AllocError, Global};

// Puts the zero behind the text two times out of three, else a number from -10 to 10.
fn push_number(alloc: Global, text: &mut String, draws: &mut Draws) -> Result<(), AllocError> {
    let draw = draws.next();
    if draw % 3 == 0 {
        let number = ((draw / 3 % 21) as i32).wrapping_sub(10);
        text.push_str(format!(in alloc; "{number}")?.as_str())
    } else {
        text.push_str(".")
    }
}

fn push_row(alloc: Global, text: &mut String, draws: &mut Draws) -> Result<(), AllocError> {
    for i in 0..4 {
        text.push_str(if i == 0 { "" } else { " " })?;
        push_number(alloc, text, draws)?;
    }
    Ok(())
}

/// The next so many inequalities.
pub fn drawn(alloc: Global, draws: &mut Draws, count: u32) -> Result<String, AllocError> {
    let mut text = String::new(alloc);
    for k in 0..count {
        text.push_str(if k == 0 { "" } else { ", " })?;
        push_row(alloc, &mut text, draws)?;
        text.push_str(" < ")?;
        push_row(alloc, &mut text, draws)?;
    }
    Ok(text)
}

/// The first inequalities of a seed.
pub fn first_of(alloc: Global, seed: u32, count: u32) -> Result<String, AllocError> {
    drawn(alloc, &mut Draws::from_seed(seed), count)
}

/// The two inequalities of the one seed, and so many of the other.
pub fn both_of(alloc: Global, seed: u32, other: u32, count: u32) -> Result<String, AllocError> {
    let front = first_of(alloc, seed, 2)?;
    let more = first_of(alloc, other, count)?;
    format!(in alloc; "{front}, {more}")
}
