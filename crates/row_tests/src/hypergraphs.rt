//! Sets of nodes and directed hypergraphs.
use row_examples::{members_text, same_text};
use std::alloc::{AllocError, Global};
use std::test::Fail;
use trop_hyper::{Hyper, Looks, Mask};

fn set(members: &[u32]) -> Mask {
    let mut mask = Mask::empty();
    for i in members {
        if *i < 64 {
            mask = mask.with(*i);
        }
    }
    mask
}

fn graph(alloc: Global, nodes: &[u32], tail: &[u32], head: &[u32]) -> Result<Hyper, AllocError> {
    let mut hyper = Hyper::new(alloc, set(nodes));
    let (tail, head) = (set(tail), set(head));
    if hyper.nodes().contains(tail) && hyper.nodes().contains(head) {
        hyper.add_edge(tail, head)?;
    }
    Ok(hyper)
}

fn reached_text(alloc: Global, hyper: &Hyper, from: u32) -> Result<String, AllocError> {
    if from < 64 && hyper.nodes().has(from) {
        members_text(alloc, hyper.closure(from, &mut Looks::new()))
    } else {
        String::from_str(alloc, "no node")
    }
}

fn greatest_text(alloc: Global, hyper: &Hyper, looks: &mut Looks) -> Result<String, AllocError> {
    match hyper.greatest(looks) {
        Some(nodes) => members_text(alloc, nodes),
        None => String::from_str(alloc, "no greatest"),
    }
}

#[test]
fn members_at_both_ends(rt: HostRuntime) -> Result<(), Fail> {
    let alloc = rt.alloc();
    let mask = set(&[0, 63]);
    let got = members_text(alloc, mask)?;
    same_text(alloc, "both ends", "0 63", got.as_str())?;
    let got = members_text(alloc, mask.without(0))?;
    same_text(alloc, "both ends without the first", "63", got.as_str())?;
    assert_eq!(rt; (mask.len(), mask.first()), (2, Some(0)));
    assert_eq!(rt; (mask.is_empty(), Mask::empty().is_empty()), (false, true));
    Ok(())
}

#[test]
fn a_tail_of_two_is_reached_from_neither(rt: HostRuntime) -> Result<(), Fail> {
    let alloc = rt.alloc();
    let hyper = graph(alloc, &[1, 2, 3], &[2, 3], &[1])?;
    let got = reached_text(alloc, &hyper, 2)?;
    same_text(alloc, "from one of a tail of two", "2", got.as_str())?;
    let got = greatest_text(alloc, &hyper, &mut Looks::new())?;
    same_text(alloc, "with a tail of two", "no greatest", got.as_str())
}

#[test]
fn a_tail_of_one_reaches_its_head(rt: HostRuntime) -> Result<(), Fail> {
    let alloc = rt.alloc();
    let mut single = graph(alloc, &[1, 2], &[2], &[1])?;
    let got = reached_text(alloc, &single, 2)?;
    same_text(alloc, "from a tail of one", "1 2", got.as_str())?;
    let mut looks = Looks::new();
    let got = greatest_text(alloc, &single, &mut looks)?;
    same_text(alloc, "with a tail of one", "1", got.as_str())?;
    let few = looks.count() >= 1 && looks.count() <= 6;
    assert_eq!(rt;
        (single.edges().len(), few),
        (1, true),
        "{} looks",
        looks.count()
    );
    single.clear(set(&[5]));
    let got = greatest_text(alloc, &single, &mut looks)?;
    same_text(alloc, "of one node", "5", got.as_str())
}
