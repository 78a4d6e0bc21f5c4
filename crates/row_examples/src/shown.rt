//! Elements, rows, lists of rows and sets of nodes as texts.
use std::alloc::{AllocError, Global};
use trop_hyper::Mask;
use trop_row::{Gens, Row};
use trop_scalar::Scalar;

/// The number of the element, or `.` for the zero.
pub fn element_text<S: Scalar>(alloc: Global, x: S) -> Result<String, AllocError> {
    match x.number() {
        Some(n) => format!(in alloc; "{n}"),
        None => String::from_str(alloc, "."),
    }
}

/// The entries of the row between blanks.
pub fn row_text<S: Scalar>(alloc: Global, row: &Row<S>) -> Result<String, AllocError> {
    let mut text = String::new(alloc);
    for (k, x) in row.as_slice().iter().enumerate() {
        text.push_str(if k == 0 { "" } else { " " })?;
        text.push_str(element_text(alloc, *x)?.as_str())?;
    }
    Ok(text)
}

/// The rows of a list, with a comma between them.
pub fn rows_text<S: Scalar>(alloc: Global, rows: &Gens<S>) -> Result<String, AllocError> {
    let mut text = String::new(alloc);
    for (k, row) in rows.as_slice().iter().enumerate() {
        text.push_str(if k == 0 { "" } else { ", " })?;
        text.push_str(row_text(alloc, row)?.as_str())?;
    }
    Ok(text)
}

/// The members of a set between blanks, or `none`.
pub fn members_text(alloc: Global, mask: Mask) -> Result<String, AllocError> {
    let mut text = String::new(alloc);
    for node in 0..64 {
        if mask.has(node) {
            text.push_str(if text.is_empty() { "" } else { " " })?;
            text.push_str(format!(in alloc; "{node}")?.as_str())?;
        }
    }
    text.push_str(if text.is_empty() { "none" } else { "" })?;
    Ok(text)
}
