// The bounds of a zone as text: for each number the two coordinates and it.
use dom_core::Domain;
use dom_zone::ZoneDomain;
use std::alloc::Global;
use std::test::Fail;

fn bound_text(alloc: Global, value: &ZoneDomain, i: u32, j: u32) -> Result<String, Fail> {
    if i == j || i > value.vars() || j > value.vars() || value.is_bottom() {
        return Ok(String::new(alloc));
    }
    match value.bound(i, j) {
        Some(number) => Ok(format!(in alloc; " {i}-{j}<={number}")?),
        None => Ok(String::new(alloc)),
    }
}

fn row_text(alloc: Global, value: &ZoneDomain, i: u32) -> Result<String, Fail> {
    let mut text = String::new(alloc);
    for j in 0..value.vars() + 1 {
        text.push_str(bound_text(alloc, value, i, j)?.as_str())?;
    }
    Ok(text)
}

pub(super) fn bounds_text(alloc: Global, value: &ZoneDomain) -> Result<String, Fail> {
    if value.is_bottom() {
        return Ok(String::from_str(alloc, " empty")?);
    }
    let mut text = String::new(alloc);
    for i in 0..value.vars() + 1 {
        text.push_str(row_text(alloc, value, i)?.as_str())?;
    }
    Ok(text)
}
