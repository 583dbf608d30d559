// What is declared from the start.
use crate::counts::{Counts, how_many};
use ext_tree::Node;
use registry::{
    ALLOW_MULTIPLE_SELECTIONS, CHANGE_FILTER, DECORATIONS, FILTER_DATA, HISTORY, HISTORY_CONFIG,
    HISTORY_NODE, NOTE, READ_ONLY, Registry, SAVE_SEPARATOR, TAB_SIZE, TRANSACTION_EXTENDER,
    TRANSACTION_FILTER,
};
use shipped_rules::Shipped;
use std::alloc::{AllocError, Global};
use std::test::*;

/// Whether a facet has this combiner, is static or not, and compares by equality.
fn is_facet(alloc: Global, facet: u32, combine: u32, is_static: bool) -> Result<bool, AllocError> {
    let registry = Registry::<Shipped>::new(alloc)?;
    match registry.defs().facets.as_slice().get(facet as usize) {
        Some(def) => Ok(
            def.combine == combine
                && def.is_static == is_static
                && def.compare_input == 1
                && def.compare == 1,
        ),
        None => Ok(false),
    }
}

#[test]
fn facets_by_their_names(rt: HostRuntime) -> Result<(), Fail> {
    for (facet, combine, is_static) in &[
        (SAVE_SEPARATOR, 8, true),
        (ALLOW_MULTIPLE_SELECTIONS, 3, true),
        (TAB_SIZE, 7, false),
        (READ_ONLY, 13, false),
        (CHANGE_FILTER, 9, false),
        (TRANSACTION_FILTER, 10, false),
        (TRANSACTION_EXTENDER, 11, false),
        (DECORATIONS, 6, false),
        (HISTORY_CONFIG, 12, false),
        (FILTER_DATA, 1, false),
    ] {
        assert!(rt; is_facet(rt.alloc(), *facet, *combine, *is_static)?);
    }
    Ok(())
}

/// Whether the first field creates and updates a history, and its node is the first one.
fn has_history(alloc: Global) -> Result<bool, AllocError> {
    let registry = Registry::<Shipped>::new(alloc)?;
    let field = match registry.defs().fields.as_slice().get(HISTORY as usize) {
        Some(def) => def.create == 6 && def.update == 6 && def.compare == 1,
        None => false,
    };
    let node = match registry.arena().nodes().get(HISTORY_NODE as usize) {
        Some(Node::Field(field)) => *field == HISTORY,
        _ => false,
    };
    Ok(field && node)
}

/// Whether the note has no map and no effect kind that undoes it.
fn has_note(alloc: Global) -> Result<bool, AllocError> {
    let registry = Registry::<Shipped>::new(alloc)?;
    let map = match registry.kinds().maps.as_slice().get(NOTE as usize) {
        Some(map) => map.is_none(),
        None => false,
    };
    let pair = match registry.pairs().get(NOTE as usize) {
        Some(pair) => pair.is_none(),
        None => false,
    };
    Ok(map && pair)
}

fn starts_with(alloc: Global, want: Counts) -> Result<bool, AllocError> {
    let registry = Registry::<Shipped>::new(alloc)?;
    Ok(how_many(&registry) == want)
}

#[test]
fn history_and_note(rt: HostRuntime) -> Result<(), Fail> {
    assert!(rt; has_history(rt.alloc())?);
    assert!(rt; has_note(rt.alloc())?);
    let want = Counts {
        facets: 10,
        fields: 1,
        nodes: 1,
        node_defs: 1,
        effects: 1,
        compartments: 0,
    };
    assert!(rt; starts_with(rt.alloc(), want)?);
    Ok(())
}
