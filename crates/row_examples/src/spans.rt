//! Rows of ones and zeros that are finite on one stretch of places.
use std::alloc::{AllocError, Global};

/// The text of a row of `len` entries: the one from `low` to before `high` and the zero elsewhere.
pub fn span_text(alloc: Global, len: u32, low: u32, high: u32) -> Result<String, AllocError> {
    let mut text = String::new(alloc);
    for i in 0..len {
        text.push_str(if i == 0 { "" } else { " " })?;
        text.push_str(if low <= i && i < high { "0" } else { "." })?;
    }
    Ok(text)
}

/// The same with the zero there and the one elsewhere.
pub fn gap_text(alloc: Global, len: u32, low: u32, high: u32) -> Result<String, AllocError> {
    let mut text = String::new(alloc);
    for i in 0..len {
        text.push_str(if i == 0 { "" } else { " " })?;
        text.push_str(if low <= i && i < high { "." } else { "0" })?;
    }
    Ok(text)
}
