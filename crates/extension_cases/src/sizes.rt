// Large trees: many inputs of a facet that enables many nodes, and many nodes in one group.
use compartments::Contents;
use ext_tree::{Arena, ExtError, ExtId, ExtIds, Flat, Links, are_links_older, flatten};
use std::alloc::{AllocError, Global};

/// Adds some inputs of a facet.
fn add_inputs(arena: &mut Arena, facet: u32, count: u32) -> Result<(), ExtError> {
    for _input in 0..count {
        if arena.len() >= 1_000_000 {
            return Err(ExtError::NoMemory);
        }
        arena.input(facet)?;
    }
    Ok(())
}

/// An arena of some inputs of facet 1, and then some of facet 0.
fn inputs(alloc: Global, ones: u32, zeros: u32) -> Result<Arena, ExtError> {
    let mut arena = Arena::empty(alloc);
    add_inputs(&mut arena, 1, ones)?;
    add_inputs(&mut arena, 0, zeros)?;
    Ok(arena)
}

/// The ids from one up to another.
fn ids(alloc: Global, from: u32, to: u32) -> Result<Vec<ExtId>, AllocError> {
    let mut ids = Vec::new(alloc);
    for id in from..to {
        ids.push(id)?;
    }
    Ok(ids)
}

/// Facet 0 enables the nodes less than a number.
fn links_of(alloc: Global, enabled: u32) -> Result<Links, ExtError> {
    let mut links = Links::empty(alloc);
    let nodes = ids(alloc, 0, enabled)?;
    links.add_facet(ExtIds::of(nodes))?;
    Ok(links)
}

fn flat_from(
    alloc: Global,
    arena: &Arena,
    roots: &[ExtId],
    links: &Links,
) -> Result<Flat, ExtError> {
    if are_links_older(arena, links) {
        flatten(alloc, arena, roots, &Contents::empty(alloc), links)
    } else {
        Err(ExtError::NoMemory)
    }
}

/// The flat order of 2,000 inputs of a facet that enables 2,000 others.
fn many_enabled(alloc: Global) -> Result<Flat, ExtError> {
    let arena = inputs(alloc, 2_000, 2_000)?;
    let links = links_of(alloc, 2_000)?;
    let roots = ids(alloc, 2_000, 4_000)?;
    flat_from(alloc, &arena, &roots, &links)
}

/// Adds a group of the nodes less than a number.
fn grouped(alloc: Global, arena: &mut Arena, count: u32) -> Result<ExtId, ExtError> {
    let members = ids(alloc, 0, count)?;
    if arena.len() >= 1_000_000 {
        return Err(ExtError::NoMemory);
    }
    arena.group(&members)
}

/// The flat order of 20,000 inputs in one group.
fn one_group(alloc: Global) -> Result<Flat, ExtError> {
    let mut arena = inputs(alloc, 20_000, 0)?;
    let root = grouped(alloc, &mut arena, 20_000)?;
    flat_from(alloc, &arena, &[root], &Links::empty(alloc))
}

/// Whether ids count up from one.
fn count_up(ids: &[ExtId], first: u32) -> bool {
    for (place, id) in ids.iter().enumerate() {
        if *id as usize != first as usize + place {
            return false;
        }
    }
    true
}

/// Whether the first input is followed by all that the facet enables, and then by the other inputs.
fn is_enabled_order(order: &[ExtId]) -> bool {
    if order.len() != 4_000 {
        return false;
    }
    order[0] == 2_000 && count_up(&order[1..2_001], 0) && count_up(&order[2_001..4_000], 2_001)
}

fn are_enabled_once(found: Result<Flat, ExtError>) -> bool {
    match found {
        Ok(found) => is_enabled_order(&found.order),
        Err(_) => false,
    }
}

fn are_all(found: Result<Flat, ExtError>, count: usize) -> bool {
    match found {
        Ok(found) => found.order.len() == count && count_up(&found.order, 0),
        Err(_) => false,
    }
}

#[test]
fn many_inputs_and_enabled_nodes(rt: HostRuntime) {
    assert!(rt; are_enabled_once(many_enabled(rt.alloc())));
}

#[test]
fn many_members(rt: HostRuntime) {
    assert!(rt; are_all(one_group(rt.alloc()), 20_000));
}
