// Worked trees. A tree is the list of its nodes, each of which names
// earlier ones by their places.
use compartments::Contents;
use ext_tree::{Arena, ExtError, ExtId, ExtIds, Flat, Links, Precedence, are_links_older, flatten};
use std::alloc::Global;
use std::test::Fail;

/// A node to be added. Inputs are of facet 0, fields and inits of field 0.
#[derive(Clone, Copy, Drop)]
enum Made<'a> {
    Input,
    Group(&'a [ExtId]),
    Prec(Precedence, ExtId),
    Slot(u32, ExtId),
    Field,
    Init,
}

fn add(arena: &mut Arena, node: &Made) -> Result<ExtId, ExtError> {
    if arena.len() >= 1000 {
        return Err(ExtError::NoMemory);
    }
    match node {
        Made::Input => arena.input(0),
        Made::Group(members) => arena.group(members),
        Made::Prec(precedence, node) => arena.prec(*precedence, *node),
        Made::Slot(compartment, content) => arena.slot(*compartment, *content),
        Made::Field => arena.field(0),
        Made::Init => arena.init(0),
    }
}

fn arena_of(alloc: Global, nodes: &[Made]) -> Result<Arena, ExtError> {
    let mut arena = Arena::empty(alloc);
    for node in nodes {
        add(&mut arena, node)?;
    }
    Ok(arena)
}

fn ids_of(alloc: Global, ids: &[ExtId]) -> Result<ExtIds, ExtError> {
    let mut list = Vec::new(alloc);
    list.extend_from_slice(ids)?;
    Ok(ExtIds::of(list))
}

/// What facet 0 enables and field 0 provides.
fn links_of(alloc: Global, enabled: &[ExtId], provided: &[ExtId]) -> Result<Links, ExtError> {
    let mut links = Links::empty(alloc);
    links.add_facet(ids_of(alloc, enabled)?)?;
    links.add_field(ids_of(alloc, &[])?)?;
    links.provide(0, ids_of(alloc, provided)?);
    Ok(links)
}

fn contents_of(alloc: Global, set: &[(u32, ExtId)]) -> Result<Contents, ExtError> {
    let mut contents = Contents::empty(alloc);
    for (compartment, content) in set {
        contents.set(*compartment, *content)?;
    }
    Ok(contents)
}

/// The flat order from one root; no links may be to newer nodes.
fn flat_from(
    alloc: Global,
    arena: &Arena,
    root: ExtId,
    contents: &Contents,
    links: &Links,
) -> Result<Flat, ExtError> {
    if are_links_older(arena, links) {
        flatten(alloc, arena, &[root], contents, links)
    } else {
        Err(ExtError::NoMemory)
    }
}

/// The flat order from one root, of a tree with no links.
fn plain(
    alloc: Global,
    nodes: &[Made],
    root: ExtId,
    set: &[(u32, ExtId)],
) -> Result<Flat, ExtError> {
    let arena = arena_of(alloc, nodes)?;
    let contents = contents_of(alloc, set)?;
    flat_from(alloc, &arena, root, &contents, &Links::empty(alloc))
}

/// The flat order from one root, of a tree whose inputs enable and whose fields provide nodes.
fn led(
    alloc: Global,
    nodes: &[Made],
    root: ExtId,
    contents: &Contents,
    links: &Links,
) -> Result<Flat, ExtError> {
    let arena = arena_of(alloc, nodes)?;
    flat_from(alloc, &arena, root, contents, links)
}

fn is_order(found: Result<Flat, ExtError>, order: &[ExtId]) -> bool {
    match found {
        Ok(found) => &*found.order == order,
        Err(_) => false,
    }
}

fn are_slots(found: Result<Flat, ExtError>, slots: &[ExtId]) -> bool {
    match found {
        Ok(found) => &*found.slots == slots,
        Err(_) => false,
    }
}

fn is_loop(found: Result<Flat, ExtError>, slots: &[ExtId]) -> bool {
    match found {
        Err(ExtError::CompartmentLoop { path }) => path.ids() == slots,
        _ => false,
    }
}

fn is_duplicate(found: Result<Flat, ExtError>, of: u32, one: ExtId, other: ExtId) -> bool {
    match found {
        Err(
            ExtError::DuplicateCompartment {
                compartment,
                first,
                second,
            },
        ) => compartment == of && first == one && second == other,
        _ => false,
    }
}

fn is_unknown<T>(found: &Result<T, ExtError>, unknown: ExtId) -> bool {
    match found {
        Err(ExtError::UnknownExt { id }) => *id == unknown,
        _ => false,
    }
}

#[test]
fn flat_orders(rt: HostRuntime) {
    let nodes = [
        Made::Input,
        Made::Input,
        Made::Input,
        Made::Input,
        Made::Prec(Precedence::High, 1),
        Made::Prec(Precedence::Lowest, 2),
        Made::Group(&[0, 4, 5, 3]),
        Made::Group(&[0]),
        Made::Prec(Precedence::Highest, 0),
        Made::Group(&[1, 7, 8]),
        Made::Group(&[1, 7]),
    ];
    assert!(rt; is_order(plain(rt.alloc(), &nodes, 6, &[]), &[1, 0, 3, 2]));
    assert!(rt; is_order(plain(rt.alloc(), &nodes, 9, &[]), &[0, 1]));
    assert!(rt; is_order(plain(rt.alloc(), &nodes, 10, &[]), &[1, 0]));
}

/// The flat order of two inputs of one facet, which enables a field, the second input at a low precedence.
fn enabled_once(alloc: Global) -> Result<Flat, ExtError> {
    let nodes = [
        Made::Field,
        Made::Input,
        Made::Input,
        Made::Prec(Precedence::Low, 2),
        Made::Group(&[3, 1]),
    ];
    let links = links_of(alloc, &[0], &[])?;
    led(alloc, &nodes, 4, &Contents::empty(alloc), &links)
}

#[test]
fn inputs_enable_once(rt: HostRuntime) {
    assert!(rt; is_order(enabled_once(rt.alloc()), &[0, 1, 2]));
}

#[test]
fn greatest_compartment(rt: HostRuntime) {
    let nodes = [Made::Input, Made::Slot(4_294_967_295, 0)];
    assert!(rt; is_order(plain(rt.alloc(), &nodes, 1, &[]), &[0]));
    assert!(rt; is_loop(plain(rt.alloc(), &nodes, 1, &[(4_294_967_295, 1)]), &[1, 1]));
}

/// An input in forty groups, each of which has the one before twice.
fn forty_doubled(alloc: Global) -> Result<Arena, ExtError> {
    let mut arena = Arena::empty(alloc);
    let mut root = add(&mut arena, &Made::Input)?;
    for _twice in 0..40 {
        root = add(&mut arena, &Made::Group(&[root, root]))?;
    }
    Ok(arena)
}

fn forty_flat(alloc: Global) -> Result<Flat, ExtError> {
    let arena = forty_doubled(alloc)?;
    flat_from(
        alloc,
        &arena,
        40,
        &Contents::empty(alloc),
        &Links::empty(alloc),
    )
}

#[test]
fn forty_doubled_groups(rt: HostRuntime) {
    assert!(rt; is_order(forty_flat(rt.alloc()), &[0]));
}

#[test]
fn slots_and_set_contents(rt: HostRuntime) {
    let nodes = [
        Made::Input,
        Made::Input,
        Made::Slot(0, 0),
        Made::Slot(1, 2),
        Made::Slot(0, 0),
        Made::Group(&[2, 4]),
    ];
    assert!(rt; is_order(plain(rt.alloc(), &nodes, 3, &[]), &[0]));
    assert!(rt; is_order(plain(rt.alloc(), &nodes, 3, &[(0, 1)]), &[1]));
    assert!(rt; are_slots(plain(rt.alloc(), &nodes, 3, &[(0, 1)]), &[3, 2]));
    assert!(rt; is_duplicate(plain(rt.alloc(), &nodes, 5, &[(0, 1)]), 0, 2, 4));
    assert!(rt; is_loop(plain(rt.alloc(), &nodes, 2, &[(0, 2)]), &[2, 2]));
}

/// The flat order from an input that enables a slot, with these set contents.
fn enabling(alloc: Global, set: &[(u32, ExtId)]) -> Result<Flat, ExtError> {
    let nodes = [Made::Group(&[]), Made::Slot(0, 0), Made::Input];
    let links = links_of(alloc, &[1], &[])?;
    let contents = contents_of(alloc, set)?;
    led(alloc, &nodes, 2, &contents, &links)
}

#[test]
fn input_enables_the_slot_around_it(rt: HostRuntime) {
    assert!(rt; is_order(enabling(rt.alloc(), &[]), &[2]));
    assert!(rt; is_loop(enabling(rt.alloc(), &[(0, 2)]), &[1, 1]));
}

/// Adds a node to the arena of one input.
fn added(alloc: Global, node: &Made) -> Result<ExtId, ExtError> {
    let mut arena = Arena::empty(alloc);
    arena.input(0)?;
    add(&mut arena, node)
}

/// Whether a node that is added to the arena of one input gets this id.
fn gets(added: Result<ExtId, ExtError>, id: ExtId) -> bool {
    match added {
        Ok(added) => added == id,
        Err(_) => false,
    }
}

#[test]
fn nodes_get_the_next_id(rt: HostRuntime) {
    for node in [
        Made::Input,
        Made::Group(&[0, 0]),
        Made::Prec(Precedence::Low, 0),
        Made::Slot(7, 0),
        Made::Field,
        Made::Init,
    ] {
        assert!(rt; gets(added(rt.alloc(), &node), 1));
    }
}

#[test]
fn unknown_members(rt: HostRuntime) {
    assert!(rt; is_unknown(&added(rt.alloc(), &Made::Group(&[0, 9, 7])), 7));
    assert!(rt; is_unknown(&added(rt.alloc(), &Made::Prec(Precedence::Low, 1)), 1));
    assert!(rt; is_unknown(&added(rt.alloc(), &Made::Slot(0, 5)), 5));
}

#[test]
fn unknown_contents_and_roots(rt: HostRuntime) {
    for (root, unknown) in [(0, 2), (1, 1)] {
        let found = plain(rt.alloc(), &[Made::Input], root, &[(3, 4), (8, 2)]);
        assert!(rt; is_unknown(&found, unknown), "from {root}");
    }
}

/// The flat order from a group of an input, a field that provides another, and the field's init, which goes before.
fn providing(alloc: Global) -> Result<Flat, ExtError> {
    let nodes = [
        Made::Input,
        Made::Input,
        Made::Field,
        Made::Init,
        Made::Prec(Precedence::High, 3),
        Made::Group(&[1, 2, 4]),
    ];
    let links = links_of(alloc, &[], &[0])?;
    led(alloc, &nodes, 5, &Contents::empty(alloc), &links)
}

#[test]
fn fields_provide_at_their_precedence(rt: HostRuntime) {
    assert!(rt; is_order(providing(rt.alloc()), &[3, 0, 1, 2]));
}
