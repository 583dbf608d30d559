// Set contents.
use compartments::Contents;
use std::alloc::{AllocError, Global};
use std::test::Fail;

/// Contents that were set in turn.
fn contents_of(alloc: Global, set: &[(u32, u32)]) -> Result<Contents, AllocError> {
    let mut contents = Contents::empty(alloc);
    for (compartment, node) in set {
        contents.set(*compartment, *node)?;
    }
    Ok(contents)
}

fn copied(alloc: Global, set: &[(u32, u32)]) -> Result<Contents, AllocError> {
    let contents = contents_of(alloc, set)?;
    contents.try_copy()
}

fn kept(alloc: Global, set: &[(u32, u32)], kept: &[u32]) -> Result<Contents, AllocError> {
    let contents = contents_of(alloc, set)?;
    contents.keep_only(kept)
}

/// The content of a compartment after a copy.
fn got(alloc: Global, set: &[(u32, u32)], compartment: u32) -> Result<Option<u32>, AllocError> {
    let contents = copied(alloc, set)?;
    Ok(contents.get(compartment))
}

/// The content of a compartment after some were kept.
fn kept_of(
    alloc: Global,
    set: &[(u32, u32)],
    keep: &[u32],
    compartment: u32,
) -> Result<Option<u32>, AllocError> {
    let contents = kept(alloc, set, keep)?;
    Ok(contents.get(compartment))
}

/// Whether a node is the content of some compartment.
fn is_content(alloc: Global, set: &[(u32, u32)], node: u32) -> Result<bool, AllocError> {
    let contents = contents_of(alloc, set)?;
    for other in contents.nodes() {
        if *other == node {
            return Ok(true);
        }
    }
    Ok(false)
}

#[test]
fn sets_and_copies(rt: HostRuntime) -> Result<(), Fail> {
    let set = [(3, 7), (5, 8), (3, 9)];
    for (compartment, node) in [(3, Some(9)), (5, Some(8)), (6, None)] {
        let found = got(rt.alloc(), &set, compartment)?;
        assert!(rt; found == node);
    }
    Ok(())
}

#[test]
fn keeps_the_named(rt: HostRuntime) -> Result<(), Fail> {
    let set = [(3, 7), (5, 8)];
    for (compartment, node) in [(3, None), (5, Some(8)), (6, None)] {
        let found = kept_of(rt.alloc(), &set, &[5, 6], compartment)?;
        assert!(rt; found == node);
    }
    Ok(())
}

#[test]
fn replaced_content_is_gone(rt: HostRuntime) -> Result<(), Fail> {
    for (node, is) in [(9, false), (3, true), (8, true)] {
        let found = is_content(rt.alloc(), &[(0, 9), (1, 8), (0, 3)], node)?;
        assert!(rt; found == is);
    }
    Ok(())
}
