// Worked configurations. An arena is the list of its nodes, each of which names earlier ones by their places.
use compartments::Contents;
use configuration::{Config, ConfigError, Defs, Dependency, FacetDef, FieldDef, NodeDef, Vertex};
use ext_tree::{Arena, ExtError, ExtId, Links, Precedence, are_links_older};
use listed::Listed;
use std::alloc::{AllocError, Global};

/// A node to be added, with its definition: a computed input reads another facet.
#[derive(Clone, Copy)]
enum Made {
    Of(u32),
    Compute(u32, u32),
    Field(u32),
    Init(u32),
    Slot(u32, ExtId),
    Highest(ExtId),
}

fn add(arena: &mut Arena, node: Made) -> Result<ExtId, ExtError> {
    if arena.len() >= 1000 {
        return Err(ExtError::NoMemory);
    }
    match node {
        Made::Of(facet) | Made::Compute(facet, _) => arena.input(facet),
        Made::Field(field) => arena.field(field),
        Made::Init(field) => arena.init(field),
        Made::Slot(compartment, content) => arena.slot(compartment, content),
        Made::Highest(node) => arena.prec(Precedence::Highest, node),
    }
}

fn arena_of(alloc: Global, nodes: &[Made]) -> Result<Arena, ExtError> {
    let mut arena = Arena::empty(alloc);
    for node in nodes {
        add(&mut arena, *node)?;
    }
    Ok(arena)
}

fn reads_of(alloc: Global, read: Dependency) -> Result<Listed<Dependency>, AllocError> {
    let mut reads = Vec::new(alloc);
    reads.push(read)?;
    Ok(Listed::new(reads))
}

fn node_def(alloc: Global, node: Made) -> Result<NodeDef<u32>, AllocError> {
    match node {
        Made::Of(_) => Ok(NodeDef::Of(7)),
        Made::Compute(_, facet) => {
            let reads = reads_of(alloc, Dependency::Facet(facet))?;
            Ok(NodeDef::Compute { rule: 4, reads })
        }
        Made::Field(_) => Ok(NodeDef::Field),
        Made::Init(_) => Ok(NodeDef::Init(5)),
        Made::Slot(_, _) | Made::Highest(_) => Ok(NodeDef::Branch),
    }
}

fn node_defs(alloc: Global, nodes: &[Made]) -> Result<Vec<NodeDef<u32>>, AllocError> {
    let mut defs = Vec::new(alloc);
    for node in nodes {
        defs.push(node_def(alloc, *node)?)?;
    }
    Ok(defs)
}

fn facet_defs(alloc: Global, count: u32) -> Result<Vec<FacetDef>, AllocError> {
    let mut facets = Vec::new(alloc);
    for _facet in 0..count {
        facets.push(FacetDef {
            combine: 1,
            compare_input: 1,
            compare: 1,
            is_static: false,
        })?;
    }
    Ok(facets)
}

fn field_def(alloc: Global, read: Dependency) -> Result<FieldDef, AllocError> {
    let reads = reads_of(alloc, read)?;
    Ok(FieldDef {
        create: 1,
        update: 1,
        compare: 1,
        reads,
        listens: Listed::new(Vec::new(alloc)),
    })
}

fn field_defs(alloc: Global, reads: &[Dependency]) -> Result<Vec<FieldDef>, AllocError> {
    let mut fields = Vec::new(alloc);
    for read in reads {
        fields.push(field_def(alloc, *read)?)?;
    }
    Ok(fields)
}

fn joined(
    alloc: Global,
    facets: Vec<FacetDef>,
    fields: Vec<FieldDef>,
    nodes: Vec<NodeDef<u32>>,
) -> Result<Defs<u32>, AllocError> {
    if facets.len() >= 1000 || fields.len() >= 1000 {
        return Err(AllocError);
    }
    Ok(Defs {
        facets: Listed::new(facets),
        fields: Listed::new(fields),
        node_defs: Listed::new(nodes),
        links: Links::empty(alloc),
    })
}

/// The definitions of some facets, of a field for each thing that one reads, and of some nodes.
fn defs_of(
    alloc: Global,
    facets: u32,
    fields: &[Dependency],
    nodes: &[Made],
) -> Result<Defs<u32>, AllocError> {
    let facets = facet_defs(alloc, facets)?;
    let fields = field_defs(alloc, fields)?;
    let nodes = node_defs(alloc, nodes)?;
    joined(alloc, facets, fields, nodes)
}

fn contents_of(alloc: Global, set: &[(u32, ExtId)]) -> Result<Contents, AllocError> {
    let mut contents = Contents::empty(alloc);
    for (compartment, node) in set {
        contents.set(*compartment, *node)?;
    }
    Ok(contents)
}

fn config_of(
    alloc: Global,
    arena: &Arena,
    defs: &Defs<u32>,
    base: &[ExtId],
    set: &[(u32, ExtId)],
) -> Result<Config, ConfigError> {
    if !are_links_older(arena, &defs.links) {
        return Err(ConfigError::NoMemory);
    }
    let contents = contents_of(alloc, set)?;
    Config::resolve(alloc, arena, defs, base, &contents)
}

fn resolved(
    alloc: Global,
    facets: u32,
    fields: &[Dependency],
    nodes: &[Made],
    base: &[ExtId],
    set: &[(u32, ExtId)],
) -> Result<Config, ConfigError> {
    let arena = arena_of(alloc, nodes)?;
    let defs = defs_of(alloc, facets, fields, nodes)?;
    config_of(alloc, &arena, &defs, base, set)
}

fn is_circle(found: Result<Config, ConfigError>, want: &[Vertex]) -> bool {
    match found {
        Err(ConfigError::Cycle { members }) => members.as_slice() == want,
        _ => false,
    }
}

fn is_order(found: Result<Config, ConfigError>, want: &[Vertex]) -> bool {
    match found {
        Ok(config) => config.order() == want,
        Err(_) => false,
    }
}

fn is_unknown(found: Result<Config, ConfigError>, unknown: ExtId) -> bool {
    match found {
        Err(ConfigError::UnknownExt { id }) => id == unknown,
        _ => false,
    }
}

/// Facet 0 computed from 1, facet 1 from 2, facet 2 from 1, facet 3 from itself; some of the inputs are present.
fn computing(alloc: Global, base: &[ExtId]) -> Result<Config, ConfigError> {
    let nodes = [
        Made::Compute(0, 1),
        Made::Compute(1, 2),
        Made::Compute(2, 1),
        Made::Compute(3, 3),
    ];
    resolved(alloc, 4, &[], &nodes, base, &[])
}

#[test]
fn circles_of_facets(rt: HostRuntime) {
    let pair = [Vertex::Facet(1), Vertex::Facet(2)];
    assert!(rt; is_circle(computing(rt.alloc(), &[0, 1, 2]), &pair));
    assert!(rt; is_circle(computing(rt.alloc(), &[1, 2]), &pair));
    assert!(rt; is_circle(computing(rt.alloc(), &[3]), &[Vertex::Facet(3)]));
}

#[test]
fn order_of_facets(rt: HostRuntime) {
    let order = [
        Vertex::Facet(1),
        Vertex::Facet(2),
        Vertex::Facet(3),
        Vertex::Facet(0),
    ];
    assert!(rt; is_order(computing(rt.alloc(), &[0]), &order));
}

/// An input, a field, its init, a slot around the field and the init at highest precedence. The second field is absent,
/// so that it reads itself does no harm.
fn with_fields(alloc: Global, base: &[ExtId]) -> Result<Config, ConfigError> {
    let nodes = [
        Made::Of(0),
        Made::Field(0),
        Made::Init(0),
        Made::Slot(3, 1),
        Made::Highest(2),
    ];
    let reads = [Dependency::Facet(0), Dependency::Field(1)];
    resolved(alloc, 1, &reads, &nodes, base, &[(3, 0), (9, 0)])
}

fn are_lists(config: &Config) -> bool {
    if config.facet_count() != 1 {
        return false;
    }
    config.base() == [3, 1, 4].as_slice()
        && config.flat() == [2, 0, 1].as_slice()
        && config.inputs(0) == [0].as_slice()
}

fn are_fields(config: &Config) -> bool {
    config.fields() == [Some(2), None].as_slice()
        && config.contents().get(3) == Some(0)
        && config.contents().get(9).is_none()
}

fn are_parts(found: Result<Config, ConfigError>) -> bool {
    match found {
        Ok(config) => are_lists(&config) && are_fields(&config),
        Err(_) => false,
    }
}

#[test]
fn fields_and_set_contents(rt: HostRuntime) {
    let order = [Vertex::Facet(0), Vertex::Field(1), Vertex::Field(0)];
    assert!(rt; is_order(with_fields(rt.alloc(), &[3, 1, 4]), &order));
    assert!(rt; are_parts(with_fields(rt.alloc(), &[3, 1, 4])));
    assert!(rt; is_unknown(with_fields(rt.alloc(), &[8, 6]), 6));
}
